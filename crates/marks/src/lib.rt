// A nexus's registered mark and its pending flags: what an answer changes of them, who is told, and the logical unit reset.
#![tactic(auto)]
