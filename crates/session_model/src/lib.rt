//! The definitions that the crates' contracts cite, a topic a module of `specs/`. It has no code of its own.
#![tactic(auto)]

pub use jack_types;
