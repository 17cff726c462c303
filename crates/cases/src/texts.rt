// The texts of the report, each by its number. A byte string in a function costs its check more than a number, so that one
// string holds them all, in the order of their numbers and with `|` between two of them.
use crate::parts::part;
use refusal_numbers::Number;
use std::io;

// Of every operation.
pub const REFUSAL: usize = 0;

pub const ROW: usize = 1;

pub const WORD: usize = 2;

pub const LINE: usize = 3;

// Of the lookups.
pub const URI: usize = 4;

pub const PREFIX: usize = 5;

pub const DEFAULT: usize = 6;

pub const IN_SCOPE_URI: usize = 7;

pub const REFUSED: usize = 8;

pub const REFUSED_ROW: usize = 9;

pub const REFUSED_WORD: usize = 10;

pub const SPACE: usize = 11;

pub const NOTHING: usize = 12;

pub const NONE: usize = 13;

pub const XML: usize = 14;

pub const XMLNS: usize = 15;

pub const YES: usize = 16;

pub const NO: usize = 17;

// Of the parts of the pool.
pub const URI_PART: usize = 18;

pub const PREFIX_PART: usize = 19;

pub const PART_END: usize = 20;

// Of normalization.
pub const ROWS: usize = 21;

pub const BYTES: usize = 22;

pub const POOL: usize = 23;

pub const KEPT: usize = 24;

pub const NOT_KEPT: usize = 25;

pub const APPENDED: usize = 26;

pub const ZERO: usize = 27;

pub const NOT_ZERO: usize = 28;

pub const CHANGED_ROW: usize = 29;

pub const WORDS: usize = 30;

// Of lines that are not run.
pub const NO_OPERATION: usize = 31;

pub const TOO_LARGE: usize = 32;

// A text.
pub fn write(rt: &impl Print, text: usize) -> io::Result<()> {
    rt.write_all(part(
        b": refusal |, row |, word |\n|: URI |, prefix |, default |, in scope: URI |refusal | row | word | |nothing|none|built-in xml|built-in xmlns|yes|no|: URI <|>, prefix <|>\n|, | rows, | bytes|, pool kept, appended <|, pool not kept, appended <|>|, the rest zero\n|, the rest NOT zero\n|  row |:|: not run, no such operation\n|: not run, a number is too large\n",
        text,
    ))
}

// A text, and a number after it.
pub fn say(rt: &impl Print, text: usize, number: usize) -> io::Result<()> {
    write(rt, text)?;
    rt.print(number)
}

// A text, and bytes after it.
pub fn quote(rt: &impl Print, text: usize, bytes: &[u8]) -> io::Result<()> {
    write(rt, text)?;
    rt.write_all(bytes)
}

// One of two texts.
pub fn either(rt: &impl Print, first: bool, yes: usize, no: usize) -> io::Result<()> {
    if first {
        return write(rt, yes);
    }
    write(rt, no)
}

// The number, row and word of a refusal, each after its text.
pub fn refusal(
    rt: &impl Print,
    number_text: usize,
    row_text: usize,
    word_text: usize,
    given: Number,
) -> io::Result<()> {
    say(rt, number_text, given.number as usize)?;
    let row = given.row;
    say(rt, row_text, row.0 as usize)?;
    say(rt, word_text, given.word as usize)
}
