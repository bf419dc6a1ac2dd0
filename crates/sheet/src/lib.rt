// The answer sheet: what it says, which sheets are sound, and that packing and reading undo each other; no code.

#![tactic(auto)]
