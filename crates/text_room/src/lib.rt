// Refusal 22: a text that was put into an output fits, or nothing of it is left.
#![tactic(auto)]

ghost use Rattle.std.specs.Prelude.{◌≡◌};
ghost use Rattle.text_room.specs.Room.{completed};

use rules::Refusal;

// Completes an output in which a text was put that ends at a place: what is behind it is zero. Where the text does not fit, it ends
// past the output: refusal 22, and all is zero.
pub fn complete(out: &mut [u8], end: usize) -> Result<usize, Refusal>
    ensures value { result ≡ (completed out.old end).answer }
    ensures out_after { out.new ≡ (completed out.old end).bytes }
{
    if end > out.len() {
        return bundles::refuse(out, Refusal::TextRoom);
    }
    buffers::clear_bytes(out, end);
    Ok(end)
}
