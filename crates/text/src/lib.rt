// A rules text as a whole: its lines, reading, running and joined texts, over any engine; no code.

#![tactic(auto)]
