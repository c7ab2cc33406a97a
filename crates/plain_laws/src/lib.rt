//! Laws on lists that hold whatever the lists are of, for all crates that speak of them.
#![tactic(auto)]
