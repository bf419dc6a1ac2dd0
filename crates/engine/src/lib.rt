// The engine of document 01: matching, substitution, assignment, and the operations as full answers; no code.

#![tactic(auto)]
