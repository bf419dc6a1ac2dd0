// A naming plan for a few devices: its checker and a planner (document 02, Item 14); no code.

#![tactic(auto)]
