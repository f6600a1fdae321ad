// What is true of every sequence of calls: see specs/ and proofs/. This crate has no function.
#![tactic(auto)]
