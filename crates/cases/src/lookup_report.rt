// What the lookups answer, as text.
use crate::texts;
use answers::Found;
use refusal_numbers::Number;
use std::io;

// A refusal, a place, a built-in, or nothing, after a text.
pub fn found(rt: &impl Print, text: usize, given: Found, nothing: usize) -> io::Result<()> {
    texts::write(rt, text)?;
    let number = given.number;
    if refused(rt, number)? {
        return Ok(());
    }
    let place = given.place;
    if given.found == answers::PLACE {
        let offset = place.offset;
        rt.print(offset.0)?;
        return texts::say(rt, texts::SPACE, place.length as usize);
    }
    built_in(rt, given.found, nothing)
}

// Whether a URI is the default that was found, or a refusal. Nothing has place 0, 0, so it equals the empty URI.
pub fn compared(rt: &impl Print, pool: &[u8], given: Found, uri: &[u8]) -> io::Result<()> {
    texts::write(rt, texts::DEFAULT)?;
    let number = given.number;
    if refused(rt, number)? {
        return Ok(());
    }
    let place = given.place;
    let is = names::same(pool::part(pool, place.offset, place.length), uri);
    texts::either(rt, is, texts::YES, texts::NO)
}

// Prints a refusal, if it is one.
fn refused(rt: &impl Print, given: Number) -> io::Result<bool> {
    if given.number == 0 {
        return Ok(false);
    }
    texts::refusal(
        rt,
        texts::REFUSED,
        texts::REFUSED_ROW,
        texts::REFUSED_WORD,
        given,
    )?;
    Ok(true)
}

fn built_in(rt: &impl Print, found: u32, nothing: usize) -> io::Result<()> {
    if found == answers::BUILT_IN_XML {
        return texts::write(rt, texts::XML);
    }
    texts::either(rt, found == answers::BUILT_IN_XMLNS, texts::XMLNS, nothing)
}
