//! Tests of a session's disks over worked files.
#![tactic(auto)]

#[cfg(test)]
mod deck;
#[cfg(test)]
mod feeds;
#[cfg(test)]
mod files;
#[cfg(test)]
mod opened;
#[cfg(test)]
mod played;
#[cfg(test)]
mod turned;
