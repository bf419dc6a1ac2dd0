// A set of rules files: which of them count, in which order, and their run (document 02, Item 11); no code.

#![tactic(auto)]
