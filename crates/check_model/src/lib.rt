//! The definitions of a check: which report is right, and which part of a wrong one is the first. It has no code of its own.
#![tactic(auto)]
