//! How many operations were finished, by the passes' shares and by the partitions' books.
ghost use Rattle.std.specs.Prelude.{◌≡◌, ◌≤◌, ◌^◌, sum, sum_by, IfOk, IfErr};

use fkv_device::Receipt;
use fkv_functions::{Mergeable, Refused};
use fkv_locked::EndedPartition;

/// What the shares add up to. Refused: `Worn` where that is past 2^64 - 1.
pub(crate) fn sum_of_shares(shares: &[u64]) -> Result<u64, Refused>
    ensures ok { IfOk result (λ total. total ≡ sum shares.now) }
    ensures worn { IfErr result (λ why. (why ≡ Refused.Worn) × (2 ^ 64 ≤ sum shares.now)) }
{
    let mut total = 0u64;
    for share in shares {
        let Some(more) = total.checked_add(*share) else {
            return Err(Refused::Worn);
        };
        total = more;
    }
    Ok(total)
}

/// What the books of these parts add up to. Refused: `Worn` where that is past 2^64 - 1.
pub(crate) fn sum_of_books<F: Mergeable, R: Receipt>(
    parts: &[EndedPartition<F, R>],
) -> Result<u64, Refused>
    ensures ok { IfOk result (λ total. total ≡ sum_by (λ part. part.book) parts.now) }
    ensures worn { IfErr result (λ why. (why ≡ Refused.Worn) × (2 ^ 64 ≤ sum_by (λ part. part.book) parts.now)) }
{
    let mut total = 0u64;
    for part in parts {
        let Some(more) = total.checked_add(part.book) else {
            return Err(Refused::Worn);
        };
        total = more;
    }
    Ok(total)
}
