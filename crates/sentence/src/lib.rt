// Document 02, request 8: the text of a reason, as docs/REASONS.md has it. This crate has no function.
#![tactic(auto)]
