// Refusal 2: a row among the rows before it. In the module the test, and the table of the allowed
// parents that it asks.
#![tactic(auto)]

pub mod structure;
