// The rows of a session bundle from before makers: ten words each. They are read as rows of maker 0.
#![tactic(auto)]

ghost use Rattle.std.specs.Prelude.{◌≡◌, [], ◌∷◌, ◌++◌, ◌*◌, ◌≤◌, length};
ghost use Rattle.rules.specs.Table.{WIDTH};
ghost use Rattle.buffers.specs.Writes.{written};
ghost use Rattle.little_endian.specs.Numbers.{words_from};
ghost use Rattle.bundles.specs.Bundles.{OLD_WIDTH, OLD_ROW_BYTES, widened};

use bundles::OLD_ROW_BYTES;

// Reads so many rows into the start of a table.
pub fn read(bytes: &[u8], table: &mut [u32], rows: usize)
    requires rows_in_bounds { OLD_ROW_BYTES * rows ≤ length bytes.now }
    requires rows_in_bounds_2 { WIDTH * rows ≤ length table.old }
    ensures { table.new ≡ written table.old 0 (widened rows (words_from (OLD_WIDTH * rows) bytes.now)) }
{
    for r in 0..rows {
        read_row(&bytes[OLD_ROW_BYTES * r..], &mut table[rules::WIDTH * r..]);
    }
}

// Reads one: its ten words, and behind them the maker 0.
fn read_row(bytes: &[u8], table: &mut [u32])
    requires in_bounds { OLD_ROW_BYTES ≤ length bytes.now }
    requires in_bounds_2 { WIDTH ≤ length table.old }
    ensures { table.new ≡ written table.old 0 (words_from OLD_WIDTH bytes.now ++ 0 ∷ []) }
{
    let words = [
        little_endian::word(bytes, 0),
        little_endian::word(bytes, 4),
        little_endian::word(bytes, 8),
        little_endian::word(bytes, 12),
        little_endian::word(bytes, 16),
        little_endian::word(bytes, 20),
        little_endian::word(bytes, 24),
        little_endian::word(bytes, 28),
        little_endian::word(bytes, 32),
        little_endian::word(bytes, 36),
        0,
    ];
    buffers::copy_words(&words, table);
}
