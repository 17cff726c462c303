// RULES 2: the number and values of the answers of operations that fill outputs, as structs that C reads too.
#![tactic(auto)]

ghost use Rattle.std.specs.Prelude.{◌≡◌};
ghost use Rattle.output_answers.specs.Given.{filled_given, written_given};

use refusal_numbers::{NOT_REFUSED, Number};
use rules::{Filled, Refusal};

// The rows and bytes of two outputs that are used; 0 for a refusal.
#[repr(C)]
#[derive(Clone, Copy)]
pub struct Sizes {
    pub number: Number,
    pub rows: usize,
    pub bytes: usize,
}

// The bytes of an output that are used; 0 for a refusal.
#[repr(C)]
#[derive(Clone, Copy)]
pub struct Used {
    pub number: Number,
    pub bytes: usize,
}

impl From<Result<Filled, Refusal>> for Sizes {
    ghost from_gives = { λ answer sizes. sizes ≡ filled_given answer };

    fn from(answer: Result<Filled, Refusal>) -> Sizes {
        match answer {
            Ok(filled) => Sizes::new(NOT_REFUSED, filled.rows, filled.bytes),
            Err(refusal) => Sizes::new(refusal.into(), 0, 0),
        }
    }
}

impl From<Result<usize, Refusal>> for Used {
    ghost from_gives = { λ answer used. used ≡ written_given answer };

    fn from(answer: Result<usize, Refusal>) -> Used {
        match answer {
            Ok(bytes) => Used::new(NOT_REFUSED, bytes),
            Err(refusal) => Used::new(refusal.into(), 0),
        }
    }
}

impl Sizes {
    fn new(number: Number, rows: usize, bytes: usize) -> Self
        ensures { result ≡ record { number = number; rows = rows; bytes = bytes } }
    {
        Self {
            number,
            rows,
            bytes,
        }
    }
}

impl Used {
    fn new(number: Number, bytes: usize) -> Self
        ensures { result ≡ record { number = number; bytes = bytes } }
    {
        Self { number, bytes }
    }
}
