// Definitions of templates; no code.

#![tactic(auto)]
