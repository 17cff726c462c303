// The types that every crate shares: where things stand in a node table and its pool, and what an operation answers: a value,
// or the refusal of its input. The definitions in specs/Answers.antt give each case's number and values.
#![tactic(auto)]

// The words of a row, the most rows of a table and the most bytes of a pool.
pub const WIDTH: usize = 11;

pub const MOST_ROWS: usize = 1024;

pub const MOST_BYTES: usize = 32768;

// In place of a row number: there is no such row.
pub const NONE: u32 = 4294967295;

// The words of a row: its type, its parent or owner, and the offset of each of its four fields, whose length is the word after it.
pub const TYPE: u32 = 0;

pub const PARENT: u32 = 1;

pub const PREFIX: u32 = 2;

pub const LOCAL_NAME: u32 = 4;

pub const URI: u32 = 6;

pub const VALUE: u32 = 8;

pub const MAKER: u32 = 10;

// The types of rows: DOM's, a namespace declaration, and a DOM Level 1 element and attribute.
pub const ELEMENT: u32 = 1;

pub const ATTRIBUTE: u32 = 2;

pub const TEXT: u32 = 3;

pub const CDATA_SECTION: u32 = 4;

pub const ENTITY_REFERENCE: u32 = 5;

pub const ENTITY: u32 = 6;

pub const PROCESSING_INSTRUCTION: u32 = 7;

pub const COMMENT: u32 = 8;

pub const DOCUMENT: u32 = 9;

pub const DOCUMENT_TYPE: u32 = 10;

pub const DOCUMENT_FRAGMENT: u32 = 11;

pub const NOTATION: u32 = 12;

pub const DECLARATION: u32 = 13;

pub const LEVEL1_ELEMENT: u32 = 257;

pub const LEVEL1_ATTRIBUTE: u32 = 258;

// The number of a row of the node table, counted from 0.
#[repr(C)]
#[derive(Clone, Copy)]
pub struct Row(pub u32);

// A place in the pool, in bytes from its start.
#[repr(C)]
#[derive(Clone, Copy)]
pub struct Offset(pub u32);

// A row counted from 1, as links between rows hold it; 0 is no row.
#[derive(Clone, Copy)]
pub struct Position(pub u16);

// The number of a name: two are equal exactly where the bytes are. 0 is the empty name.
#[derive(Clone, Copy)]
pub struct NameId(pub u16);

// A part of the pool.
#[repr(C)]
#[derive(Clone, Copy)]
pub struct Place {
    pub offset: Offset,
    pub length: u32,
}

// Why an operation refuses its input; the row is the one at fault, and the word that of the faulty field's offset.
#[derive(Clone, Copy)]
pub enum Refusal {
    // 1: the table is not whole rows, or the table or the pool is too long.
    Size,
    // 2: an unknown type, a parent that is not allowed, or a document's second element.
    Structure(Row),
    // 3: a field that runs past the pool.
    PastPool { row: Row, word: u32 },
    // 4: a local name is missing, or a name holds a byte that it may not.
    Names(Row),
    // 5: an element's or attribute's prefix and URI do not go together.
    Namespace(Row),
    // 6: an illegal declaration.
    Declaration(Row),
    // 7: a second declaration or attribute of the same name at one owner.
    Double(Row),
    // 8: a lookup from a row that is not in the table.
    NoSuchRow,
    // 9: a DOM Level 1 row, which normalization does not take.
    Level1(Row),
    // 10: the result has more rows than a table or the output can hold.
    RowRoom,
    // 11: the result has more pool bytes than a pool or the output can hold.
    PoolRoom,
    // 12: a field that has an offset and no length.
    OffsetWithoutLength { row: Row, word: u32 },
    // 13: a field that has a length and must be empty.
    MustBeEmpty { row: Row, word: u32 },
    // 14: a field that is not well-formed UTF-8.
    MalformedUtf8 { row: Row, word: u32 },
    // 20: no element to write as text, or a row of a type that has no markup.
    NotMarkup(Row),
    // 21: a value that holds a character that XML does not allow.
    Character(Row),
    // 22: the output has too few bytes for the text.
    TextRoom,
    // 23: a name whose prefix does not mean its URI in scope.
    Undeclared(Row),
    // 24: a declaration outside the text that is in scope in it.
    Inherited(Row),
    // 30: a bundle's mark is another, or not whole.
    Mark,
    // 31: a bundle is of another version, or ends before it.
    Version,
    // 32: a bundle's lengths disagree with its bytes, or its zero byte is not zero.
    Lengths,
    // 33: the output has too few bytes for the bundle.
    BundleRoom,
    // 40: the original of a proposal fails the check, at this row and field.
    Original { row: Row, word: u32 },
    // 41: the proposal fails the check, at this row and field.
    Proposal { row: Row, word: u32 },
    // 42: a DOM Level 1 row of the original or of the proposal.
    ProposalLevel1(Row),
    // 43: a row of the original that the proposal does not keep, or a further row that is no declaration.
    Changed(Row),
    // 44: a name of the proposal that does not mean its URI in scope.
    Unresolved(Row),
}

// What is asked at a row: a URI of a prefix or a prefix of a URI, by names and declarations or by declarations alone.
#[derive(Clone, Copy)]
pub enum Question {
    UriOfPrefix,
    PrefixOfUri,
    InScopeUri,
    InScopePrefix,
}

// What a lookup finds, if it finds anything: a part of the pool, or a built-in.
#[derive(Clone, Copy)]
pub enum Bound {
    At(Place),
    Xml,
    Xmlns,
}

// How many rows and bytes an operation takes of the lent table and the lent pool that it fills.
#[derive(Clone, Copy)]
pub struct Filled {
    pub rows: usize,
    pub bytes: usize,
}

// How many rows salvage takes of the output table, and how many dropped rows the list holds.
#[derive(Clone, Copy)]
pub struct Salvaged {
    pub rows: usize,
    pub dropped: usize,
}

// How many bytes the salvage of a bundle takes of the output, and how many dropped rows the list holds.
#[derive(Clone, Copy)]
pub struct Rescued {
    pub bytes: usize,
    pub dropped: usize,
}
