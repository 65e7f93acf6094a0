//! Words and laws on plain lists that several crates need: totals over a list, and lists that begin with one another.
//! It has no code: see `specs/` for the words and `proofs/` for the laws.
#![tactic(auto)]
