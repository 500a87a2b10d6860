//! How the bytes of a page that was written differ from those that wait.
ghost use Rattle.std.specs.Prelude.{◌≡◌, ◌∷◌, [], length, None, option_map};
ghost use Rattle.fkv_hybrid.specs.Flushes.{first_difference, difference, bytes_refusal};

use fkv_device::comparing::is_same;
use fkv_functions::{Refused, What};

/// Why bytes are not those of the page that waits: `Stranger` with the lengths where they differ, else with the two
/// bytes at the first difference.
pub(crate) fn refusal_of_bytes(held: &[u8], came: &[u8]) -> Option<Refused>
    ensures { result ≡ bytes_refusal (held.now ∷ []) came.now }
{
    if held.len() != came.len() {
        return Some(Refused::Stranger {
            what: What::Bytes,
            held: held.len() as u64,
            came: came.len() as u64,
        });
    }
    if is_same(held, came) {
        return None;
    }
    let (held, came) = differing(held, came)?;
    Some(Refused::Stranger {
        what: What::Bytes,
        held: u64::from(held),
        came: u64::from(came),
    })
}

/// The two bytes at the first place where two lists differ, as far as both go.
fn differing(held: &[u8], came: &[u8]) -> Option<(u8, u8)>
    ensures { result ≡ first_difference held.now came.now }
{
    let mut at = 0;
    while at < held.len() && at < came.len() {
        if held[at] != came[at] {
            return Some((held[at], came[at]));
        }
        at += 1;
    }
    None
}
