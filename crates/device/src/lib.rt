// The device record: what it says, and which records are sound; no code.

#![tactic(auto)]
