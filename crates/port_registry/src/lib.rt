//! The open clients and the ports of the server, with their limits, their births and their ids.
#![tactic(auto)]

mod births;
mod clients;
mod opening;
mod ports;
mod registries;
mod tables;

pub use births::ports_stand_in_order_of_birth;
pub use registries::Registry;
pub use tables::PortIter;
