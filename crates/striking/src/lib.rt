// Definitions and proofs only: lines with faults struck from a text (document 02, Item 12).

#![tactic(auto)]
