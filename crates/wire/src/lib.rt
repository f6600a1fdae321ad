// Bytes: big-endian numbers, bits, stores into a lent buffer, rules of pages.
#![tactic(auto)]
