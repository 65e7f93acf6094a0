//! Laws of a view of `action_lock` that advances, for the proofs of the crates above it. There is no code: see `proofs/` for
//! the laws.
#![tactic(auto)]
