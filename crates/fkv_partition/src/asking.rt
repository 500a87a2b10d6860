//! What an open operation is.
ghost use Rattle.std.specs.Prelude.{◌≡◌, Some, None, is_some, IfOk, IfErr};
ghost use Rattle.fkv_operations.specs.Operations.{op_of};
ghost use Rattle.fkv_partition.specs.KeyEffect.{asked};
ghost use Rattle.fkv_partition.specs.Views.{loading_at};

use crate::contexts::loading_of;
use crate::partitions::Partition;
use fkv_device::Receipt;
use fkv_functions::{Mergeable, Refused};
use fkv_operations::KeyedOpOf;

impl<F: Mergeable, R: Receipt> Partition<F, R> {
    /// The operation that is open in a context, after its number, which is the moment of its issue.
    /// Refused: `Unknown` where none is open there.
    pub(crate) fn asked_on_key(
        &self,
        slot: usize,
        context: usize,
    ) -> Result<(u64, KeyedOpOf<F>), Refused>
        ensures ok { IfOk result (λ x. asked self.now slot context ≡ Some (record { number = x.0; op = op_of x.1 })) }
        ensures none { IfErr result (λ _. asked self.now slot context ≡ None) }
        ensures only { IfErr result (λ refused. refused ≡ Refused.Unknown) }
    {
        let Some(open) = self.open(slot, context) else {
            return Err(Refused::Unknown);
        };
        Ok((open.number, open.op))
    }

    /// Whether the operation in a context waits for a page.
    pub(crate) fn awaits_page_on_key(&self, slot: usize, context: usize) -> bool
        ensures { result ≡ is_some (loading_at self.now slot context) }
    {
        match self.open(slot, context) {
            None => false,
            Some(open) => loading_of(&open.phase).is_some(),
        }
    }
}
