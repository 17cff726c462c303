// Numbers of two and four bytes, and words, read from bytes and written to them, the lowest byte first.
#![tactic(auto)]

ghost use Rattle.std.specs.Prelude.{◌≡◌, ◌+◌, ◌*◌, ◌%◌, ◌≤◌, length};
ghost use Rattle.buffers.specs.Writes.{written};
ghost use Rattle.little_endian.specs.Numbers.{bytes_of, number_at, word_bytes, words_from};

// The number in the two bytes from a place on.
pub fn short(bytes: &[u8], at: usize) -> u32
    requires { at + 2 ≤ length bytes.now }
    ensures { result ≡ number_at bytes.now at 2 }
{
    u32::from(u16::from_le_bytes([bytes[at], bytes[at + 1]]))
}

// The number in the four bytes from a place on.
pub fn word(bytes: &[u8], at: usize) -> u32
    requires { at + 4 ≤ length bytes.now }
    ensures { result ≡ number_at bytes.now at 4 }
{
    u32::from_le_bytes([bytes[at], bytes[at + 1], bytes[at + 2], bytes[at + 3]])
}

// Reads so many words into the start of a table.
pub fn read_words(bytes: &[u8], table: &mut [u32], count: usize)
    requires count_in_bounds { 4 * count ≤ length bytes.now }
    requires count_in_bounds_2 { count ≤ length table.old }
    ensures { table.new ≡ written table.old 0 (words_from count bytes.now) }
{
    for (i, place) in table[..count].iter_mut().enumerate() {
        *place = word(bytes, 4 * i);
    }
}

// Writes words from a place on, four bytes each.
pub fn write_words(out: &mut [u8], at: usize, words: &[u32])
    requires { at + 4 * length words.now ≤ length out.old }
    ensures { out.new ≡ written out.old at (word_bytes words.now) }
{
    for (i, word) in words.iter().enumerate() {
        write_word(out, at + 4 * i, *word);
    }
}

// Writes a number to the four bytes from a place on.
fn write_word(out: &mut [u8], at: usize, x: u32)
    requires { at + 4 ≤ length out.old }
    ensures { out.new ≡ written out.old at (bytes_of 4 x) }
{
    out[at..at + 4].copy_from_slice(&x.to_le_bytes());
}

// The lowest byte of a number.
pub fn byte(x: u32) -> u8
    ensures { result ≡ x % 256 }
{
    (x % 256) as u8
}
