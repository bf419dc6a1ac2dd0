// Definitions and laws of patterns; no code.

#![tactic(auto)]
