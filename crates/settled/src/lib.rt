// What it means that a promise settles its outcome: see specs/. This crate has no function.
#![tactic(auto)]
