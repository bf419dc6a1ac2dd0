// Reading entries from the front of a record, and the entries that both records hold; no code.

#![tactic(auto)]
