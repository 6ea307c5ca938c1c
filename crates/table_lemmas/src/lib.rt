//! Lemmas that crates on `atomic_table` share. It has no code of its own.
#![tactic(auto)]
