// Parts of the pool: the bytes at a place, and those that an answer stands for.
#![tactic(auto)]

ghost use Rattle.std.specs.Prelude.{◌≡◌, min};
ghost use Rattle.rules.specs.Table.{part};
ghost use Rattle.rules.specs.Lookups.{bound_part, located_part};
ghost use Rattle.rules.specs.Answers.{bound_place, located_place};
ghost use Rattle.pool.specs.Parts.{StandsAt};

use rules::{Bound, Offset, Place, Refusal};

const NO_PLACE: Place = Place {
    offset: Offset(0),
    length: 0,
};

// The part of the pool that starts at an offset, as far as the pool goes.
pub fn part<'p>(pool: &'p [u8], offset: Offset, length: u32) -> &'p [u8]
    ensures result_value { result.now ≡ part pool.now offset.0 length }
    ensures stands_at { StandsAt pool.entry offset.0 result }
{
    let start = least(offset.0 as usize, pool.len());
    let size = least(length as usize, pool.len() - start);
    &pool[start..start + size]
}

// The part of the pool that an answer for a URI stands for; empty for a built-in, for nothing and for a refusal.
pub fn bound_part<'p>(pool: &'p [u8], found: Result<Option<Bound>, Refusal>) -> &'p [u8]
    ensures result_value { result.now ≡ bound_part pool.now found }
    ensures stands_at { StandsAt pool.entry (bound_place found).offset.0 result }
{
    let uri = bound_place(found);
    part(pool, uri.offset, uri.length)
}

// The part of the pool that an answer for a prefix or for the default URI stands for; empty for nothing and for a refusal.
pub fn located_part<'p>(pool: &'p [u8], found: Result<Option<Place>, Refusal>) -> &'p [u8]
    ensures result_value { result.now ≡ located_part pool.now found }
    ensures stands_at { StandsAt pool.entry (located_place found).offset.0 result }
{
    let place = located_place(found);
    part(pool, place.offset, place.length)
}

// Where that part stands; where the pool starts if it is empty.
fn bound_place(found: Result<Option<Bound>, Refusal>) -> Place
    ensures { result ≡ bound_place found }
{
    match found {
        Ok(Some(Bound::At(place))) => place,
        Ok(Some(Bound::Xml)) => NO_PLACE,
        Ok(Some(Bound::Xmlns)) => NO_PLACE,
        Ok(None) => NO_PLACE,
        Err(_) => NO_PLACE,
    }
}

fn located_place(found: Result<Option<Place>, Refusal>) -> Place
    ensures { result ≡ located_place found }
{
    match found {
        Ok(Some(place)) => place,
        Ok(None) => NO_PLACE, // nothing
        Err(_) => NO_PLACE, // a refusal
    }
}

// The smaller of two numbers.
fn least(a: usize, b: usize) -> usize
    ensures { result ≡ min a b }
{
    if a < b {
        return a;
    }
    b
}
