// Refusals 3, 12 and 13: what the places of the fields of one row draw.
#![tactic(auto)]

pub mod field;
mod plain;
