// Session bundles: a node table and its pool as bytes. What the bytes begin with, and what a refused write leaves.
#![tactic(auto)]

ghost use Rattle.std.specs.Prelude.{◌≡◌, length};
ghost use Rattle.bundles.specs.Operations.{write_refused};

use rules::Refusal;

// The bytes before the rows, and the bytes of a row. Before rows had makers they had ten words.
pub const HEADER: usize = 12;

pub const ROW_BYTES: usize = 4 * rules::WIDTH;

pub const OLD_WIDTH: usize = 10;

pub const OLD_ROW_BYTES: usize = 4 * OLD_WIDTH;

// `NTB`; the version that is written, and the one before makers, which is read too.
pub const MARK: [u8; 3] = [78, 84, 66];

pub const VERSION: u8 = 2;

pub const OLD_VERSION: u8 = 1;

// Refuses, and clears the output.
pub fn refuse(out: &mut [u8], why: Refusal) -> Result<usize, Refusal>
    ensures value { result ≡ (write_refused (length out.old) why).answer }
    ensures out_after { out.new ≡ (write_refused (length out.old) why).bytes }
{
    buffers::clear_bytes(out, 0);
    Err(why)
}
