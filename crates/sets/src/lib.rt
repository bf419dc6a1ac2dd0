// Sets of records and texts that are lent as one slice (document 02, Items 7, 11 and 14): how they are laid out, and what is given back; no code.

#![tactic(auto)]
