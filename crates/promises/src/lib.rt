// The page that an auditor reads: the theorems by name, and every public promise shown settled. See proofs/. This crate has no function.
#![tactic(auto)]
