// What a closed key keeps, and a text without the assignments to it (document 02, Item 13); no code.

#![tactic(auto)]
