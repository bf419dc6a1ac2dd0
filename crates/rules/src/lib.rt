// A rules text as document 01 reads it: keys, pairs, lines; no code.

#![tactic(auto)]
