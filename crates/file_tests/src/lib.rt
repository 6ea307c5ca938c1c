//! Tests of files of the system: what is read, written, made and kept there.
#![tactic(auto)]

#[cfg(test)]
mod folder;
#[cfg(test)]
mod kept;
#[cfg(test)]
mod refused;
#[cfg(test)]
mod written;
