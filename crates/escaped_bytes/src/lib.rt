// Values in XML text: what is left of a value with its escapes, byte by byte.
#![tactic(auto)]

ghost use Rattle.std.specs.Prelude.{◌≡◌, ◌≤◌, length, drop};
ghost use Rattle.buffers.specs.Writes.{Put};
ghost use Rattle.escapes.specs.Escapes.{escaped};
ghost use Rattle.escaping.specs.Rows.{ROW, rows};

// Writes what is left of a value from a byte on, byte by byte, as long as there is room for any.
pub fn write_each(
    out: &mut [u8],
    at: usize,
    value: &[u8],
    from: usize,
    quoted: bool,
    escapes: &[u8],
) -> usize
    requires { (escapes.now ≡ rows) × (ROW ≤ length out.old) × (from ≤ length value.now) }
    ensures { Put out.old at (escaped quoted (drop from value.now)) result out.new }
{
    let limit = out.len() - escaping::ROW;
    let mut to = at;
    for i in from..value.len() {
        if to > limit {
            return put_each(out, to, value, i, quoted, escapes);
        }
        to = escaping::write_byte(out, to, value[i], quoted, escapes);
    }
    to
}

// Puts what is left of a value from a byte on, byte by byte, until one does not fit.
pub fn put_each(
    out: &mut [u8],
    at: usize,
    value: &[u8],
    from: usize,
    quoted: bool,
    escapes: &[u8],
) -> usize
    requires { (escapes.now ≡ rows) × (from ≤ length value.now) }
    ensures { Put out.old at (escaped quoted (drop from value.now)) result out.new }
{
    let mut to = at;
    for b in &value[from..] {
        if to > out.len() {
            return to;
        }
        to = escaping::put_byte(out, to, *b, quoted, escapes);
    }
    to
}
