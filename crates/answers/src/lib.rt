// RULES 2: the number and values of the answers of the lookups, as a struct that C reads too.
#![tactic(auto)]

ghost use Rattle.std.specs.Prelude.{◌≡◌};
ghost use Rattle.rules.specs.Answers.{not_refused, no_place};
ghost use Rattle.refusal_numbers.specs.Given.{number_given, refusal_given};
ghost use Rattle.answers.specs.Given.{located_given, bound_given};

use refusal_numbers::NOT_REFUSED;
pub use refusal_numbers::Number;
use rules::{Bound, Offset, Place, Refusal};

// What a lookup found, and where. The place is 0, 0 for nothing, for a built-in and for a refusal.
#[repr(C)]
#[derive(Clone, Copy)]
pub struct Found {
    pub number: Number,
    pub found: u32,
    pub place: Place,
}

// What was found.
pub const NOTHING: u32 = 0;

pub const PLACE: u32 = 1;

pub const BUILT_IN_XML: u32 = 2;

pub const BUILT_IN_XMLNS: u32 = 3;

const NO_PLACE: Place = Place {
    offset: Offset(0),
    length: 0,
};

// What the lookup of a prefix and that of the default URI answer.
impl From<Result<Option<Place>, Refusal>> for Found {
    ghost from_gives = { λ answer found. found ≡ located_given answer };

    fn from(answer: Result<Option<Place>, Refusal>) -> Found {
        match answer {
            Ok(Some(place)) => Found::new(NOT_REFUSED, PLACE, place),
            Ok(None) => Found::nothing(),
            Err(refusal) => Found::refused(refusal), // place 0, 0
        }
    }
}

// What the lookup of a URI and the in-scope lookups answer.
impl From<Result<Option<Bound>, Refusal>> for Found {
    ghost from_gives = { λ answer found. found ≡ bound_given answer };

    fn from(answer: Result<Option<Bound>, Refusal>) -> Found {
        match answer {
            Ok(Some(Bound::At(place))) => Found::new(NOT_REFUSED, PLACE, place),
            Ok(Some(Bound::Xml)) => Found::new(NOT_REFUSED, BUILT_IN_XML, NO_PLACE),
            Ok(Some(Bound::Xmlns)) => Found::new(NOT_REFUSED, BUILT_IN_XMLNS, NO_PLACE),
            Ok(None) => Found::nothing(), // no built-in
            Err(refusal) => Found::refused(refusal),
        }
    }
}

impl Found {
    fn new(number: Number, found: u32, place: Place) -> Self
        ensures { result ≡ record { number = number; found = found; place = place } }
    {
        Self {
            number,
            found,
            place,
        }
    }

    fn nothing() -> Self
        ensures { result ≡ record { number = number_given not_refused; found = NOTHING; place = no_place } }
    {
        Self::new(NOT_REFUSED, NOTHING, NO_PLACE)
    }

    fn refused(refusal: Refusal) -> Self
        ensures { result ≡ record { number = refusal_given refusal; found = NOTHING; place = no_place } }
    {
        Self::new(refusal.into(), NOTHING, NO_PLACE)
    }
}
