// Definitions and proofs only: the rules of a text written back (document 02, Item 2).

#![tactic(auto)]
