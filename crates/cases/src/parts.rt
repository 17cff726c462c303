// The parts of a line, with `|` between two of them.
use crate::words;

// More bytes than a pool may have.
pub const MOST: usize = rules::MOST_BYTES + 12;

// The part of that number, counted from 0; empty where there are fewer.
pub fn part(line: &[u8], number: usize) -> &[u8] {
    piece(line, number, b'|')
}

// The piece of that number of a text, with that byte between two of them.
pub fn piece(text: &[u8], number: usize, between: u8) -> &[u8] {
    text.split(|byte| *byte == between)
        .nth(number)
        .unwrap_or(&[])
}

// A pool: the bytes that are written, or for `*` and a number so many bytes of plenty.
pub fn pool<'a>(written: &'a [u8], plenty: &'a [u8]) -> &'a [u8] {
    if written.len() == 0 {
        return written;
    }
    if written[0] != b'*' {
        return written;
    }
    between(plenty, 0, words::number(written) as usize)
}

// The number of bytes of such a pool, if it has one, can be read.
pub fn has_size(written: &[u8]) -> bool {
    if written.len() == 0 {
        return true;
    }
    if written[0] != b'*' {
        return true;
    }
    words::are_numbers(written)
}

// A pool whose bytes are written in hexadecimal: `#` comes first.
pub fn is_hexadecimal(written: &[u8]) -> bool {
    if written.len() == 0 {
        return false;
    }
    written[0] == b'#'
}

// The bytes from one index to another; none where there are no such bytes.
pub fn between(bytes: &[u8], from: usize, to: usize) -> &[u8] {
    if to > bytes.len() {
        return &bytes[..0];
    }
    if from > to {
        return &bytes[..0];
    }
    &bytes[from..to]
}
