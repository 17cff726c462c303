// What salvage kept, as it stands in the table that it was written to, as a session bundle.
#![tactic(auto)]

ghost use Rattle.std.specs.Prelude.{◌≡◌, List, ℕ, length};
ghost use Rattle.salvage.specs.Salvage.{rescue_refused, rescued};
ghost use Rattle.salvaged_bundle.specs.Kept.{Kept, SomeKept};

use rules::{Refusal, Rescued, Salvaged};

// Writes what was kept as a bundle with the whole pool, or refuses as salvage did, or with 33, and clears the list then too.
#[inline(always)]
pub fn finish(
    salvaged: Result<Salvaged, Refusal>,
    kept: &[u32],
    pool: &[u8],
    out: &mut [u8],
    list: &mut [u32],
) -> Result<Rescued, Refusal>
    requires { SomeKept salvaged kept.now pool.now list.old }
    ensures by_index { (table : List ℕ) → Kept salvaged kept.now pool.now list.old table → result ≡ (rescued table pool.now (length out.old) (length list.old)).answer }
    ensures by_index_2 { (table : List ℕ) → Kept salvaged kept.now pool.now list.old table → out.new ≡ (rescued table pool.now (length out.old) (length list.old)).bytes }
    ensures by_index_3 { (table : List ℕ) → Kept salvaged kept.now pool.now list.old table → list.new ≡ (rescued table pool.now (length out.old) (length list.old)).list }
{
    match salvaged {
        Ok(counts) => {
            match bundle_encoding::write_bundle(bundle_parts::table(kept, counts.rows), pool, out) {
                Ok(bytes) => Ok(Rescued {
                    bytes,
                    dropped: counts.dropped,
                }),
                Err(x) => refuse(out, list, x),
            }
        }
        Err(x) => refuse(out, list, x),
    }
}

// Refuses, and clears both outputs.
pub fn refuse(out: &mut [u8], list: &mut [u32], why: Refusal) -> Result<Rescued, Refusal>
    ensures value { result ≡ (rescue_refused (length out.old) (length list.old) why).answer }
    ensures out_after { out.new ≡ (rescue_refused (length out.old) (length list.old) why).bytes }
    ensures list_after { list.new ≡ (rescue_refused (length out.old) (length list.old) why).list }
{
    buffers::clear_bytes(out, 0);
    buffers::clear_words(list, 0);
    Err(why)
}
