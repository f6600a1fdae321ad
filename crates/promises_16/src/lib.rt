// What is proved of this model beyond the promises of single functions: no code.
#![tactic(auto)]
