//! How many updates stood at the issue, and at the last look-up, of what is open in each context.
ghost use Rattle.std.specs.Prelude.{◌≡◌, ◌<◌, length, replicate, slice_index, slice_set, IfOk, IfErr};
ghost use Rattle.fkv_locked.specs.Kept.{place_of};

use fkv_functions::Refused;
use std::alloc::Global;

/// A count for each context of a partition.
const MARKS: usize = 128;

/// No updates, for each context. Refused: `NoMemory`.
pub(crate) fn fresh_marks(alloc: Global) -> Result<Vec<u64>, Refused>
    ensures ok { IfOk result (λ marks. marks.items ≡ replicate 128 0) }
    ensures only { IfErr result (λ refused. refused ≡ Refused.NoMemory) }
{
    let Ok(marks) = vec![in alloc; 0u64; MARKS] else {
        return Err(Refused::NoMemory);
    };
    Ok(marks)
}

/// The count of a context.
pub(crate) fn mark_at(marks: &Vec<u64>, slot: usize, context: usize) -> u64
    requires slot { slot < 16 }
    requires context { context < 8 }
    requires length { length marks.now.items ≡ 128 }
    ensures { result ≡ slice_index marks.now.items (place_of slot context) }
{
    marks[slot * 8 + context]
}

/// Sets the count of a context.
pub(crate) fn set_mark(marks: &mut Vec<u64>, slot: usize, context: usize, count: u64)
    requires slot { slot < 16 }
    requires context { context < 8 }
    requires length { length marks.old.items ≡ 128 }
    ensures { marks.new.items ≡ slice_set marks.old.items (place_of slot context) count }
{
    marks[slot * 8 + context] = count;
}
