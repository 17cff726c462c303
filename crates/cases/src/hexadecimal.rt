// Bytes written in hexadecimal, two digits each, with a space between two of them.
ghost use Rattle.std.specs.Prelude.{◌<◌, ◌≤◌, length};

// Puts the bytes of the text into the buffer, as far as it goes, and answers how many.
pub fn read(text: &[u8], out: &mut [u8]) -> usize
    ensures { result ≤ length out.new }
{
    let count = out.len().min((text.len() + 1) / 3);
    for (i, byte) in out[..count].iter_mut().enumerate() {
        *byte = digit(text[3 * i]) * 16 + digit(text[3 * i + 1]);
    }
    count
}

// The digit that a byte stands for; 0 for any other byte.
fn digit(b: u8) -> u8
    ensures { result < 16 }
{
    let decimal = b.wrapping_sub(b'0');
    if decimal < 10 {
        return decimal;
    }
    let letter = b.wrapping_sub(b'A');
    if letter < 6 {
        return letter + 10;
    }
    0
}
