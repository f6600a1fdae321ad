// When each answer is due to a call that has a sender, and what becomes of a block that is written: see specs/. This crate has no function.
#![tactic(auto)]
