//! Laws of the text of a report, each as the contract of a function that does nothing.
#![tactic(auto)]

pub mod reports;
