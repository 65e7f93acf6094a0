//! Laws of the fields of `byte_fields`, for the proofs of the formats that are made of them: what is read is spelled so,
//! and what is spelled is read again. It has no code: see `proofs/` for the laws.
#![tactic(auto)]
