// What every call keeps: a well-formed record stays well formed. See proofs/. This crate has no function.
#![tactic(auto)]
