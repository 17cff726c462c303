// The bundle of a table whose pool stands in the output already, behind where the rows will be.
#![tactic(auto)]

ghost use Rattle.std.specs.Prelude.{◌≡◌, ◌+◌, ◌*◌, ◌≤◌, length, take, drop};
ghost use Rattle.rules.specs.Table.{WIDTH, MOST_ROWS, MOST_BYTES};
ghost use Rattle.bundles.specs.Bundles.{HEADER, write_bundle};
ghost use Rattle.bundles.specs.Operations.{write_done};

use bundles::HEADER;
use rules::Refusal;

// Writes what stands before the pool, the header and the rows, and clears what stands behind the pool, which has so many bytes.
pub fn write_before(table: &[u32], bytes: usize, out: &mut [u8]) -> Result<usize, Refusal>
    requires table_len_bound { (length table.now ≤ WIDTH * MOST_ROWS) × (bytes ≤ MOST_BYTES) }
    requires bytes_in_bounds { HEADER + 4 * length table.now + bytes ≤ length out.old }
    ensures value { result ≡ (write_done (length out.old) (write_bundle table.now (take bytes (drop (HEADER + 4 * length table.now) out.old)))).answer }
    ensures out_after { out.new ≡ (write_done (length out.old) (write_bundle table.now (take bytes (drop (HEADER + 4 * length table.now) out.old)))).bytes }
{
    let size = HEADER + 4 * table.len() + bytes;
    bundle_encoding::write_header(rows::row_count(table) as u32, bytes as u32, out);
    little_endian::write_words(out, HEADER, table);
    buffers::clear_bytes(out, size);
    Ok(size)
}
