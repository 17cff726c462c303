// The markup of the tree of an element.
#![tactic(auto)]
