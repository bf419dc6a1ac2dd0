// Definitions and laws of lists that every other crate cites; no code.

#![tactic(auto)]
