// Document 02, request 6: what an answer says of a page's rules, the faulty byte of answer 8: see specs/. This crate has no function.
#![tactic(auto)]
