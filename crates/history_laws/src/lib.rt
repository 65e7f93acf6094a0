//! Laws of the world and its history, in the words of `write_history`: functions that do nothing, whose contracts are
//! the laws. Their lemmas are there to be cited by the proofs of the crates above.
#![tactic(auto)]

pub mod laws;
