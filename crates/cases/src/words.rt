// A table written out: its words with a space between two of them, `-` for NONE. In a word, bytes that are no digits are
// passed over, so a comma may end a row. `*` and a number stand for as many more rows as make it that many: each word
// grows from row to row as it did between the two rows before. A number in digits is at most 4294967289.
ghost use Rattle.std.specs.Prelude.{◌≤◌, length};

// The words of two rows more than a table may have.
pub const MOST: usize = (rules::MOST_ROWS + 2) * rules::WIDTH;

// Puts the words of the text into the buffer, as far as it goes, and answers how many.
pub fn read(text: &[u8], out: &mut [u32]) -> usize
    ensures { result ≤ length out.new }
{
    let mut count = 0;
    for word in text.split(|byte| *byte == b' ') {
        count = put(word, out, count);
    }
    count
}

// Puts one more word, or the rows that a `*` stands for.
fn put(word: &[u8], out: &mut [u32], count: usize) -> usize
    requires { count ≤ length out.old }
    ensures { result ≤ length out.new }
{
    if word.len() == 0 {
        return count;
    }
    let given = number(word);
    if word[0] == b'*' {
        return go_on(out, count, given);
    }
    if count < out.len() {
        out[count] = given;
        return count + 1;
    }
    count
}

fn go_on(out: &mut [u32], count: usize, rows: u32) -> usize
    requires { count ≤ length out.old }
    ensures { result ≤ length out.new }
{
    if count < 2 * rules::WIDTH {
        return count;
    }
    let end = out.len().min(rows as usize * rules::WIDTH);
    for at in count..end {
        out[at] = next(out[at - rules::WIDTH], out[at - 2 * rules::WIDTH]);
    }
    count.max(end)
}

// The word after two others: it differs from the last as that does from the one before.
fn next(last: u32, before: u32) -> u32 {
    last.wrapping_add(last.wrapping_sub(before))
}

// No word of the text has a digit too many to be a number.
pub fn are_numbers(text: &[u8]) -> bool {
    !text.split(|byte| *byte == b' ').any(is_too_large)
}

fn is_too_large(word: &[u8]) -> bool {
    let mut number: u32 = 0;
    for byte in word {
        if (number >= rules::NONE / 10) & is_digit(*byte) {
            return true;
        }
        number = with_digit(number, *byte);
    }
    false
}

fn is_digit(b: u8) -> bool {
    b.wrapping_sub(b'0') < 10
}

// The number that the digits of a text make; `-` makes NONE, and so does a digit too many.
pub fn number(text: &[u8]) -> u32 {
    text.iter()
        .fold(0, |number, byte| with_digit(number, *byte))
}

fn with_digit(number: u32, b: u8) -> u32 {
    if b == b'-' {
        return rules::NONE;
    }
    let digit = b.wrapping_sub(b'0');
    if digit > 9 {
        return number;
    }
    if number >= rules::NONE / 10 {
        return rules::NONE;
    }
    number * 10 + digit as u32
}
