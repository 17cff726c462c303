// Which rows of a table salvage drops, and which it keeps.
#![tactic(auto)]
