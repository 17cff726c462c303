// RULES 2: the number of each refusal, with the row and the word that it names, as a struct that C reads too.
#![tactic(auto)]

ghost use Rattle.std.specs.Prelude.{◌≡◌};
ghost use Rattle.refusal_numbers.specs.Given.{refusal_given, check_given};

use rules::{Refusal, Row};

// The refusal's number, the row at fault, and the word, 2, 4, 6 or 8, of the offset of the field at fault. The row is 0 for a
// refusal that names none, the word for one that names no field; all three are 0 where nothing is refused.
#[repr(C)]
#[derive(Clone, Copy)]
pub struct Number {
    pub number: u32,
    pub row: Row,
    pub word: u32,
}

// The numbers of an operation that refuses nothing.
pub const NOT_REFUSED: Number = Number {
    number: 0,
    row: Row(0),
    word: 0,
};

// The numbers of a refusal.
impl From<Refusal> for Number {
    ghost from_gives = { λ refusal number. number ≡ refusal_given refusal };

    fn from(refusal: Refusal) -> Number {
        match refusal {
            Refusal::Size => Number::new(1, Row(0), 0),
            Refusal::Structure(row) => Number::new(2, row, 0),
            Refusal::PastPool { row, word } => Number::new(3, row, word),
            Refusal::Names(row) => Number::new(4, row, 0),
            Refusal::Namespace(row) => Number::new(5, row, 0),
            Refusal::Declaration(row) => Number::new(6, row, 0),
            Refusal::Double(row) => Number::new(7, row, 0),
            Refusal::NoSuchRow => Number::new(8, Row(0), 0),
            Refusal::Level1(row) => Number::new(9, row, 0),
            Refusal::RowRoom => Number::new(10, Row(0), 0),
            Refusal::PoolRoom => Number::new(11, Row(0), 0),
            Refusal::OffsetWithoutLength { row, word } => Number::new(12, row, word),
            Refusal::MustBeEmpty { row, word } => Number::new(13, row, word),
            Refusal::MalformedUtf8 { row, word } => Number::new(14, row, word),
            Refusal::NotMarkup(row) => Number::new(20, row, 0),
            Refusal::Character(row) => Number::new(21, row, 0),
            Refusal::TextRoom => Number::new(22, Row(0), 0),
            Refusal::Undeclared(row) => Number::new(23, row, 0),
            Refusal::Inherited(row) => Number::new(24, row, 0),
            Refusal::Mark => Number::new(30, Row(0), 0),
            Refusal::Version => Number::new(31, Row(0), 0),
            Refusal::Lengths => Number::new(32, Row(0), 0),
            Refusal::BundleRoom => Number::new(33, Row(0), 0),
            Refusal::Original { row, word } => Number::new(40, row, word),
            Refusal::Proposal { row, word } => Number::new(41, row, word),
            Refusal::ProposalLevel1(row) => Number::new(42, row, 0),
            Refusal::Changed(row) => Number::new(43, row, 0),
            Refusal::Unresolved(row) => Number::new(44, row, 0),
        }
    }
}

// The numbers of what a check answers: 0 where nothing is refused.
impl From<Result<(), Refusal>> for Number {
    ghost from_gives = { λ answer number. number ≡ check_given answer };

    fn from(answer: Result<(), Refusal>) -> Number {
        match answer {
            Ok(()) => NOT_REFUSED,
            Err(refusal) => Number::from(refusal),
        }
    }
}

impl Number {
    fn new(number: u32, row: Row, word: u32) -> Self
        ensures { result ≡ record { number = number; row = row; word = word } }
    {
        Self { number, row, word }
    }
}
