//! Lemmas on lists, truth values and options that crates share, and the weights and counts of list members. No code.
#![tactic(auto)]
