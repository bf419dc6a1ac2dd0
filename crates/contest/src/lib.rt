// Who holds a link that several outcome records claim (document 02, Item 7); no code.

#![tactic(auto)]
