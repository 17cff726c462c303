// Values in XML text: a value with its escapes, run by run.
#![tactic(auto)]

ghost use Rattle.std.specs.Prelude.{◌≡◌, ◌+◌, ◌-◌, ◌≤◌, ◌<◌, length, take, drop};
ghost use Rattle.buffers.specs.Writes.{Put};
ghost use Rattle.escapes.specs.Escapes.{escaped};
ghost use Rattle.runs.specs.Runs.{run, Known};
ghost use Rattle.escaping.specs.Rows.{rows};
ghost use Rattle.escaped_runs.specs.Blocks.{BLOCK, ROOM};

// Short runs are copied by so many bytes at once.
const BLOCK: usize = 16;

// The room for a short run and an escape.
pub const ROOM: usize = BLOCK + escaping::ROW;

// Writes a value by its runs, as long as there is room for a short one and an escape, and a block to read; then byte by byte. What
// does not fit ends the loop.
pub fn write_runs(
    out: &mut [u8],
    at: usize,
    value: &[u8],
    runs: &[u16],
    quoted: bool,
    escapes: &[u8],
) -> usize
    requires { (escapes.now ≡ rows) × (ROOM ≤ length out.old) × Known value.now runs.now }
    ensures { Put out.old at (escaped quoted value.now) result out.new }
{
    let size = value.len();
    let blocks = blocks_of(size);
    let limit = out.len() - ROOM;
    let mut to = at;
    let mut i = 0;
    // No range gives i: each step is as long as the run that it passes.
    while i < blocks {
        if to > limit {
            return escaped_bytes::put_each(out, to, value, i, quoted, escapes);
        }
        let n = length_from(value, runs, i, quoted);
        if n >= BLOCK {
            let end = end_of(i, n, size);
            to = buffers::put_bytes(out, to, &value[i..end]);
            i = end;
        } else {
            let end = i + n;
            let behind = copy_short(out, to, value, i, n);
            to = escaping::write_escape(out, behind, value[end], escapes);
            i = end + 1;
        }
    }
    write_tail(out, to, value, runs, i, quoted, escapes)
}

// Writes what is left of a value from a byte on, less than a block: often it is all one run.
fn write_tail(
    out: &mut [u8],
    at: usize,
    value: &[u8],
    runs: &[u16],
    from: usize,
    quoted: bool,
    escapes: &[u8],
) -> usize
    requires { (escapes.now ≡ rows) × (ROOM ≤ length out.old) × (from ≤ length value.now) × Known value.now runs.now }
    ensures { Put out.old at (escaped quoted (drop from value.now)) result out.new }
{
    if from >= value.len() {
        return at;
    }
    if length_from(value, runs, from, quoted) >= value.len() - from {
        return buffers::put_bytes(out, at, &value[from..]);
    }
    escaped_bytes::write_each(out, at, value, from, quoted, escapes)
}

// The length of the run from byte i on: it is known, or looked for.
fn length_from(value: &[u8], runs: &[u16], i: usize, quoted: bool) -> usize
    requires { (i < length value.now) × Known value.now runs.now }
    ensures value_value { take result (drop i value.now) ≡ run quoted (drop i value.now) }
    ensures result_in_bounds { i + result ≤ length value.now + 65536 }
{
    if runs.len() == 0 {
        return runs::look_for_run(value, i, quoted);
    }
    run_lengths::run_length(runs, i, quoted)
}

// From how many bytes on a block can be read.
fn blocks_of(size: usize) -> usize
    ensures { result ≡ size + 1 - BLOCK }
{
    if size < BLOCK {
        return 0;
    }
    size - BLOCK + 1
}

// Where a run of n bytes from byte i on ends, within so many bytes.
fn end_of(i: usize, n: usize, size: usize) -> usize
    requires { (i < size) × (0 < n) }
    ensures { (i < result) × (result ≤ size) × (result ≤ i + n) }
{
    if n < size - i {
        return i + n;
    }
    size
}

// Writes a run of less than a block as a block, of which what stands behind the run is overwritten later; answers where the run ends.
fn copy_short(out: &mut [u8], at: usize, value: &[u8], i: usize, n: usize) -> usize
    requires { (at + BLOCK ≤ length out.old) × (i + BLOCK ≤ length value.now) × (n < BLOCK) }
    ensures { (result ≡ at + n) × Put out.old at (take n (drop i value.now)) result out.new }
{
    if n == 0 {
        return at;
    }
    let mut block: [u8; BLOCK] = [0; BLOCK];
    buffers::write_bytes(&mut block, 0, &value[i..i + BLOCK]);
    buffers::write_bytes(out, at, &block);
    at + n
}
