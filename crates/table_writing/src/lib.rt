// A table and its pool written as a session bundle, if the check accepts them.
#![tactic(auto)]

ghost use Rattle.std.specs.Prelude.{◌≡◌, length};
ghost use Rattle.bundles.specs.Operations.{table_written};

use rules::Refusal;

// Writes a table and its pool as a bundle, if the check accepts them: its refusals and 33.
pub fn write(table: &[u32], pool: &[u8], out: &mut [u8]) -> Result<usize, Refusal>
    ensures value { result ≡ (table_written table.now pool.now (length out.old)).answer }
    ensures out_after { out.new ≡ (table_written table.now pool.now (length out.old)).bytes }
{
    bundle_encoding::write_checked(checker::check(table, pool), table, pool, out)
}
