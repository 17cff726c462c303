// What a planner, who is not trusted, proposes for an original.
#![tactic(auto)]
