// A text run over each record of a lent set; no code.

#![tactic(auto)]
