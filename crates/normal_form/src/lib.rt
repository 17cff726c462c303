// The normal form of an accepted table and its pool, made in working buffers.
#![tactic(auto)]

ghost use Rattle.std.specs.Prelude.{◌≡◌, ℕ, ◌*◌, ◌≤◌, ◌<◌, min};
ghost use Rattle.rules.specs.Table.{MOST_ROWS, row_count, nodes};
ghost use Rattle.rules.specs.Normalization.{normal_form};
ghost use Rattle.notes.specs.Notes.{NOTES, LATEST, note_at, HasNotes};
ghost use Rattle.scopes.specs.Standing.{Linked};
ghost use Rattle.attributes.specs.Following.{LinkedFrom};
ghost use Rattle.element_steps.specs.Buffers.{Finished};
ghost use Rattle.normal_form.specs.Result.{form_of};
ghost use Rattle.normal_form.specs.Lent.{Ready, Lent};

use repair::Sizes;

// The bytes of the working pool: those of any pool, and an NS prefix for each of its rows.
pub const WORK: usize = rules::MOST_BYTES + 6 * rules::MOST_ROWS;

// The words of the tops that are lent for a small table and for any. Up to three names of each row, one
// more for each that is added, and xml have numbers.
pub const SMALL_TOPS: usize = stacks::TOPS * (4 * table_size::FEW_ROWS + 2);

pub const TOPS: usize = stacks::TOPS * (3 * rules::MOST_ROWS + 2);

// Makes the result in the output table and a working pool. Answers how many rows and bytes it has, or
// more rows than the limit where those are too many.
pub fn normalize_into(
    table: &[u32],
    pool: &[u8],
    out_table: &mut [u32],
    work: &mut [u8],
    notes: &mut [u16],
    path: &mut [u16],
    tops: &mut [u16],
    sizes: Sizes,
) -> Sizes
    requires { Lent table.now pool.now out_table.old work.old notes.old path.old tops.old sizes.rows sizes.bytes sizes.names sizes.limit }
    ensures { Finished out_table.new work.new sizes.limit result.rows result.bytes (normal_form (nodes table.now pool.now) pool.now) }
{
    if sizes.limit < sizes.rows {
        return Sizes {
            rows: sizes.limit + 1, // no row is ever taken away
            bytes: 0,
            names: 0,
            free: 1,
            limit: sizes.limit,
        };
    }
    buffers::copy_words(table, out_table);
    buffers::copy_bytes(pool, work);
    make_result(out_table, work, notes, path, tops, sizes)
}

// Makes the result of the first rows of a table and the first bytes of a working pool, in place. Answers
// how many rows and bytes it has, or more rows than the limit where those are too many.
pub fn make_result(
    words: &mut [u32],
    work: &mut [u8],
    notes: &mut [u16],
    path: &mut [u16],
    tops: &mut [u16],
    sizes: Sizes,
) -> Sizes
    requires { Ready words.old work.old notes.old path.old tops.old sizes.rows sizes.bytes sizes.names sizes.limit }
    ensures { Finished words.new work.new sizes.limit result.rows result.bytes (form_of words.old work.old sizes.rows sizes.bytes) }
{
    link_rows(&words[..rules::WIDTH * sizes.rows], notes);
    let within = Sizes {
        rows: sizes.rows,
        bytes: sizes.bytes,
        names: sizes.names,
        free: 1,
        limit: most_rows(sizes.rows, sizes.limit),
    };
    elements::normalize_rows(words, work, notes, tops, path, within)
}

// Links the declarations and the attributes of a table.
fn link_rows(table: &[u32], notes: &mut [u16])
    requires table_bound { (row_count table.now ≤ MOST_ROWS) × HasNotes notes.old (row_count table.now) }
    requires by_index { (e k : ℕ) → LATEST ≤ k → k < NOTES → note_at notes.old e k ≡ 0 }
    ensures linked { Linked table.now notes.new (row_count table.now) }
    ensures linked_from { LinkedFrom table.now notes.new (row_count table.now) 0 }
    ensures by_index_2 { (r k : ℕ) → k < LATEST → note_at notes.new r k ≡ note_at notes.old r k }
{
    scopes::link_all(table, notes);
    attributes::link_attributes(table, notes);
}

// How many rows a result may have: it never has more than twice those of its input.
fn most_rows(rows: usize, limit: usize) -> usize
    requires { rows ≤ MOST_ROWS }
    ensures { result ≡ min limit (2 * rows) }
{
    limit.min(2 * rows)
}
