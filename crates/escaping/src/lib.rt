// Values in XML text: writing a byte with its escape.
#![tactic(auto)]

ghost use Rattle.std.specs.Prelude.{◌≡◌, true, ◌+◌, ◌≤◌, ◌<◌, length};
ghost use Rattle.buffers.specs.Writes.{Put};
ghost use Rattle.escapes.specs.Escapes.{is_escaped, escape};
ghost use Rattle.escaping.specs.Rows.{ROW, rows};

// How many bytes are written for an escape: it, and what is overwritten by what follows.
pub const ROW: usize = 8;

// Writes a byte of a value, a text or in quotes, where there is room; answers where it ends.
pub fn write_byte(out: &mut [u8], at: usize, b: u8, quoted: bool, escapes: &[u8]) -> usize
    requires { (escapes.now ≡ rows) × (at + ROW ≤ length out.old) }
    ensures { Put out.old at (escape quoted b) result out.new }
{
    if runs::ends_run(b, quoted) {
        return write_escape(out, at, b, escapes);
    }
    buffers::write_bytes(out, at, &[b])
}

// Writes the escape of a byte, where there is room; answers where it ends. It is found by the byte's low four bits, which differ for
// all that are escaped, and is written with what stands behind it, so that the compiler writes one word.
pub fn write_escape(out: &mut [u8], at: usize, b: u8, escapes: &[u8]) -> usize
    requires { (escapes.now ≡ rows) × (at + ROW ≤ length out.old) × (is_escaped true b ≡ true) }
    ensures { Put out.old at (escape true b) result out.new }
{
    let row = ROW * (b as usize % 16);
    let mut bytes: [u8; ROW] = [0; ROW];
    buffers::write_bytes(&mut bytes, 0, &escapes[row..row + ROW]);
    buffers::write_bytes(out, at, &bytes);
    at + wide(escapes[row + 7])
}

// A length as an index.
fn wide(x: u8) -> usize
    ensures { (result ≡ x) × (result < 256) }
{
    x as usize
}

// Writes a byte of a value, if it fits; answers where it ends, or a place past the output's end.
pub fn put_byte(out: &mut [u8], at: usize, b: u8, quoted: bool, escapes: &[u8]) -> usize
    requires { escapes.now ≡ rows }
    ensures { Put out.old at (escape quoted b) result out.new }
{
    let mut bytes: [u8; ROW] = [0; ROW];
    let end = write_byte(&mut bytes, 0, b, quoted, escapes);
    buffers::put_bytes(out, at, &bytes[..end])
}
