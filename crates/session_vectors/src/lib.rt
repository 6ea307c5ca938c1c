//! The worked rows over the top call that need a host, a sink or a guest of the tests.
#![tactic(auto)]

#[cfg(test)]
mod building;
#[cfg(test)]
mod bytewise;
#[cfg(test)]
mod checking;
#[cfg(test)]
mod disks;
#[cfg(test)]
mod faults;
#[cfg(test)]
mod gates;
#[cfg(test)]
mod overruns;
#[cfg(test)]
mod recorders;
#[cfg(test)]
mod rehearsing;
#[cfg(test)]
mod running;
#[cfg(test)]
mod scores;
#[cfg(test)]
mod sharing;
#[cfg(test)]
mod stealing;
#[cfg(test)]
mod threads;
#[cfg(test)]
mod told_cycles;
