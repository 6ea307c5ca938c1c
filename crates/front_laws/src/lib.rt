//! Laws of what stands of a WAVE file behind a fault, each as the contract of a function that does nothing.
#![tactic(auto)]

mod laws;

pub use laws::{
    a_finished_file_has_a_front, an_empty_file_has_a_front, an_unfinished_file_has_a_front,
    what_a_front_leaves_has_one, what_has_a_front_has_any_front,
};
