// RULES 2: the number and values of what salvage answers, as structs that C reads too.
#![tactic(auto)]

ghost use Rattle.std.specs.Prelude.{◌≡◌};
ghost use Rattle.salvage_answers.specs.Given.{rescued_given};

use refusal_numbers::{NOT_REFUSED, Number};
use rules::{Refusal, Rescued};

// The bytes of an output that are used, and the rows that were dropped; 0 for a refusal.
#[repr(C)]
#[derive(Clone, Copy)]
pub struct Saved {
    pub number: Number,
    pub bytes: usize,
    pub dropped: usize,
}

impl From<Result<Rescued, Refusal>> for Saved {
    ghost from_gives = { λ answer saved. saved ≡ rescued_given answer };

    fn from(answer: Result<Rescued, Refusal>) -> Saved {
        match answer {
            Ok(rescued) => Saved::new(NOT_REFUSED, rescued.bytes, rescued.dropped),
            Err(refusal) => Saved::new(refusal.into(), 0, 0),
        }
    }
}

impl Saved {
    fn new(number: Number, bytes: usize, dropped: usize) -> Self
        ensures { result ≡ record { number = number; bytes = bytes; dropped = dropped } }
    {
        Self {
            number,
            bytes,
            dropped,
        }
    }
}
