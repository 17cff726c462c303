// The lengths of a value's runs, of which no byte is escaped: they are measured once for a whole pool.
#![tactic(auto)]

ghost use Rattle.std.specs.Prelude.{◌≡◌, cond, ◌+◌, ◌*◌, ◌≤◌, ◌<◌, length, get_or};
ghost use mir.Val.{bool_byte};
ghost use Rattle.rules.specs.Table.{MOST_BYTES};
ghost use Rattle.escapes.specs.Escapes.{is_escaped};
ghost use Rattle.runs.specs.Runs.{Measured};

// The length of the run from byte i on, in a text or in quotes.
pub fn run_length(runs: &[u16], i: usize, quoted: bool) -> usize
    requires { 2 * i + 1 < length runs.now }
    ensures { (result ≡ get_or runs.now (2 * i + bool_byte quoted) 0) × (result < 65536) }
{
    wide(runs[2 * i + place(quoted)])
}

// Where the length in a text, or that in quotes, stands among the two of a byte.
fn place(quoted: bool) -> usize
    ensures { (result ≡ bool_byte quoted) × (result < 2) }
{
    quoted as usize
}

// A length as an index.
fn wide(x: u16) -> usize
    ensures { (result ≡ x) × (result < 65536) }
{
    x as usize
}

// The lengths of the two runs from each byte on, from the last to the first: that in a text, and behind it that in quotes.
pub fn measure_runs(bytes: &[u8], runs: &mut [u16])
    requires { (length bytes.now ≤ MOST_BYTES) × (2 * length bytes.now ≤ length runs.old) }
    ensures { Measured bytes.now runs.new }
{
    let mut text: u16 = 0;
    let mut quoted: u16 = 0;
    for i in (0..bytes.len()).rev() {
        text = run_from(bytes[i], text, false);
        quoted = run_from(bytes[i], quoted, true);
        runs[2 * i] = text;
        runs[2 * i + 1] = quoted;
    }
}

// The length of the run from a byte on, by that of the run behind it. Most bytes are passed by the first test: no byte from 63 on
// is escaped.
fn run_from(b: u8, behind: u16, quoted: bool) -> u16
    requires { behind < MOST_BYTES }
    ensures { result ≡ cond (is_escaped quoted b) 0 (behind + 1) }
{
    if b < 63 {
        if runs::is_escaped(b, quoted) {
            return 0;
        }
    }
    behind + 1
}
