// Answers that are a place, nothing or a refusal, as those of a lookup that finds no built-in.
#![tactic(auto)]

ghost use Rattle.std.specs.Prelude.{◌≡◌};
ghost use Rattle.rules.specs.Lookups.{without_built_ins};

use rules::{Bound, Place, Refusal};

// The answer of a lookup that finds no built-in.
pub fn without_built_ins(found: Result<Option<Bound>, Refusal>) -> Result<Option<Place>, Refusal>
    ensures { result ≡ without_built_ins found }
{
    match found {
        Ok(Some(Bound::At(place))) => Ok(Some(place)),
        Ok(Some(Bound::Xml)) => Ok(None),
        Ok(Some(Bound::Xmlns)) => Ok(None),
        Ok(None) => Ok(None),
        Err(x) => Err(x),
    }
}
