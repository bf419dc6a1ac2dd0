// The numbers of an answer as a call writes them; no code.

#![tactic(auto)]
