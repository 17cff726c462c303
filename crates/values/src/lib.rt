// Values in XML text: writing a value with its escapes.
#![tactic(auto)]

ghost use Rattle.std.specs.Prelude.{◌≡◌};
ghost use Rattle.buffers.specs.Writes.{Put};
ghost use Rattle.escapes.specs.Escapes.{escaped};
ghost use Rattle.runs.specs.Runs.{Known};
ghost use Rattle.escaping.specs.Rows.{rows};

// A value of fewer bytes is gone through at once; a longer one may be plain as a whole.
const SHORT: usize = 32;

// The escapes, each in the row that the low four bits of its byte tell: seven bytes, and how many of them are the escape.
const ESCAPES: [u8; 128] = [
    0, 0, 0, 0, 0, 0, 0, 0, 0, 0, 0, 0, 0, 0, 0, 0, 38, 113, 117, 111, 116, 59, 0, 6, 0, 0, 0, 0,
    0, 0, 0, 0, 0, 0, 0, 0, 0, 0, 0, 0, 0, 0, 0, 0, 0, 0, 0, 0, 38, 97, 109, 112, 59, 0, 0, 5, 0,
    0, 0, 0, 0, 0, 0, 0, 0, 0, 0, 0, 0, 0, 0, 0, 38, 35, 57, 59, 0, 0, 0, 4, 38, 35, 49, 48, 59, 0,
    0, 5, 0, 0, 0, 0, 0, 0, 0, 0, 38, 108, 116, 59, 0, 0, 0, 4, 38, 35, 49, 51, 59, 0, 0, 5, 38,
    103, 116, 59, 0, 0, 0, 4, 0, 0, 0, 0, 0, 0, 0, 0,
];

// Writes a value with its escapes to an output from a place on: a text, or in quotes the value of an attribute or a declaration.
// The lengths of its runs may be known; if there are none, they are not. Answers where it ends, or a place past the output's end;
// behind that end nothing of the value is looked at.
pub fn write_value(out: &mut [u8], at: usize, value: &[u8], runs: &[u16], quoted: bool) -> usize
    requires { Known value.now runs.now }
    ensures { Put out.old at (escaped quoted value.now) result out.new }
{
    if at > out.len() {
        return at;
    }
    if (runs.len() == 0) & (value.len() >= SHORT) {
        if runs::is_plain(value, quoted) {
            return buffers::put_bytes(out, at, value);
        }
    }
    write_escaped(out, at, value, runs, quoted, &ESCAPES)
}

// Writes a value by its runs, or into little room byte by byte.
fn write_escaped(
    out: &mut [u8],
    at: usize,
    value: &[u8],
    runs: &[u16],
    quoted: bool,
    escapes: &[u8],
) -> usize
    requires { (escapes.now ≡ rows) × Known value.now runs.now }
    ensures { Put out.old at (escaped quoted value.now) result out.new }
{
    if out.len() < escaped_runs::ROOM {
        return escaped_bytes::put_each(out, at, value, 0, quoted, escapes);
    }
    escaped_runs::write_runs(out, at, value, runs, quoted, escapes)
}
