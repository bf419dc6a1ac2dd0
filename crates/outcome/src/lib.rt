// The outcome record: what it says, which records are sound, and that packing and reading undo each other; no code.

#![tactic(auto)]
