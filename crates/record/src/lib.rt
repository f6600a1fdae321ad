// The bytes of a device record, and the record that bytes give: see specs/ and proofs/. This crate has no function.
#![tactic(auto)]
