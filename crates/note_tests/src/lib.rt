//! Tests of what is noted of a play: its calls, which of them were refused, its recorders and disks, and the first bytes of its files.
#![tactic(auto)]

#[cfg(test)]
mod fronts;
#[cfg(test)]
mod listening;
#[cfg(test)]
mod losses;
#[cfg(test)]
mod notes;
