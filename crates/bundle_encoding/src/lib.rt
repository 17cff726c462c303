// A table and its pool written as a session bundle.
#![tactic(auto)]

ghost use Rattle.std.specs.Prelude.{◌≡◌, ◌≤◌, length};
ghost use Rattle.std.proofs.Math.Option.{none};
ghost use Rattle.rules.specs.Refusals.{checked};
ghost use Rattle.rules.proofs.Accepted.{Sized};
ghost use Rattle.buffers.specs.Writes.{written};
ghost use Rattle.bundles.specs.Bundles.{HEADER, header_bytes, write_bundle};
ghost use Rattle.bundles.specs.Operations.{bundle_written, table_written};

use bundles::{HEADER, MARK, VERSION};
use rules::{Offset, Refusal};

// Writes a table and its pool, if the check has accepted them.
pub fn write_checked(
    drawn: Result<(), Refusal>,
    table: &[u32],
    pool: &[u8],
    out: &mut [u8],
) -> Result<usize, Refusal>
    requires { drawn ≡ checked table.now pool.now }
    ensures value { result ≡ (table_written table.now pool.now (length out.old)).answer }
    ensures out_after { out.new ≡ (table_written table.now pool.now (length out.old)).bytes }
{
    match drawn {
        Ok(()) => write_bundle(table, pool, out),
        Err(x) => bundles::refuse(out, x),
    }
}

// Writes a table and its pool as a bundle to the start of an output, and clears the rest; or refuses with 33.
pub fn write_bundle(table: &[u32], pool: &[u8], out: &mut [u8]) -> Result<usize, Refusal>
    requires { Sized table.now pool.now }
    ensures value { result ≡ (bundle_written none (length out.old) (write_bundle table.now pool.now)).answer }
    ensures out_after { out.new ≡ (bundle_written none (length out.old) (write_bundle table.now pool.now)).bytes }
{
    let behind = HEADER + 4 * table.len();
    let size = behind + pool.len();
    if out.len() < size {
        return bundles::refuse(out, Refusal::BundleRoom);
    }
    write_header(rows::row_count(table) as u32, pool.len() as u32, out);
    little_endian::write_words(out, HEADER, table);
    buffers::append_bytes(out, Offset(behind as u32), pool);
    buffers::clear_bytes(out, size);
    Ok(size)
}

// Writes the bytes before the rows.
pub fn write_header(rows: u32, bytes: u32, out: &mut [u8])
    requires { HEADER ≤ length out.old }
    ensures { out.new ≡ written out.old 0 (header_bytes rows bytes) }
{
    let header = [
        MARK[0],
        MARK[1],
        MARK[2],
        VERSION,
        0,
        0,
        little_endian::byte(rows),
        little_endian::byte(rows / 256),
        little_endian::byte(bytes),
        little_endian::byte(bytes / 256),
        little_endian::byte(bytes / 65536),
        little_endian::byte(bytes / 16777216),
    ];
    buffers::append_bytes(out, Offset(0), &header);
}
