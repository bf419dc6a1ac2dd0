// What a device record and the target hold together, and what a change of the target answers: the layout of the record that it leaves, or its
// refusal.

#![tactic(auto)]
