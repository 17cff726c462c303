// The names of one row, by what each is, so that no byte of it is read again: whether the row draws refusal 4 or 5 for
// them, and a declaration 6.
#![tactic(auto)]

pub mod declaration;
pub mod name;
pub mod namespace;
pub mod plain;

// What the names of a row are; the value's kind is that of a declaration's URI.
#[derive(Clone, Copy)]
pub struct Kinds {
    pub prefix: u16,
    pub local: u16,
    pub uri: u16,
    pub value: u16,
}
