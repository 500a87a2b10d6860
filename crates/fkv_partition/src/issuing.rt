//! How an operation on a key is issued.
ghost use Rattle.std.specs.Prelude.{◌≡◌, ◌<◌, ◌≤◌, None, true, IfOk, OnErr};
ghost use Rattle.fkv_operations.specs.After.{key_of, is_merge};
ghost use Rattle.fkv_partition.specs.KeyBeginning.{IsEntered, Issues};
ghost use Rattle.fkv_partition.specs.KeyEffect.{IsIssue};
ghost use Rattle.fkv_partition.specs.Events.{IsPassedOn};
ghost use Rattle.fkv_partition.specs.Views.{held_at, partition_of, relocation_at};
ghost use Rattle.fkv_partition.specs.Beginning.{IssuesOnKey};

use crate::partitions::Partition;
use fkv_device::Receipt;
use fkv_functions::{Mergeable, Refused, What};
use fkv_operations::KeyedOpOf;

impl<F: Mergeable, R: Receipt> Partition<F, R> {
    /// Issues an operation on a key in a session and answers its context, the lowest free one. Refused, in this order, and
    /// then nothing changes: `Unknown` where the slot is that of no session, `Stranger` where the key belongs to another
    /// partition, `NoMerge` where it is a merge and the functions don't merge, `NoContext`.
    pub(crate) fn issue_on_key(
        &mut self,
        slot: usize,
        op: KeyedOpOf<F>,
        functions: &F,
        now: u64,
    ) -> Result<usize, Refused>
        requires later { self.old.moment < now }
        ensures effect { IssuesOnKey F.code self.old self.new slot op now result }
        ensures rest { IsPassedOn self.old self.new }
        ensures event { IfOk result
            (λ context. IsIssue F.code self.old self.new slot context op now) }
        ensures closed { IfOk result (λ context. relocation_at self.old slot context ≡ None) }
        ensures within { IfOk result (λ context. (slot < 16) × (context < 8)) }
        ensures unchanged { OnErr result (self.new ≡ self.old) }
        ensures moment { self.new.moment ≤ now }
    {
        self.facts();
        if !self.is_session(slot) {
            return Err(Refused::Unknown);
        }
        let came = self.home(functions, &op.key());
        let held = self.number();
        if came != held {
            return Err(Refused::Stranger {
                what: What::Partition,
                held,
                came,
            });
        }
        if self.lacks_merges(&op) {
            return Err(Refused::NoMerge);
        }
        let Some(context) = self.first_free(slot) else {
            return Err(Refused::NoContext);
        };
        self.issue_in(slot, context, op, now);
        Ok(context)
    }

    /// Issues an operation in a context of a session, one that the caller has chosen and in which nothing is open. Its key
    /// belongs to this partition, and it is a merge only where the functions merge.
    pub(crate) fn issue_in(&mut self, slot: usize, context: usize, op: KeyedOpOf<F>, now: u64)
        requires later { self.old.moment < now }
        requires entered { IsEntered self.old slot }
        requires context { context < 8 }
        requires free { held_at self.old slot context ≡ None }
        requires own { partition_of self.old.count (F.code (key_of op)) ≡ self.old.number }
        requires merging { is_merge op ≡ true → self.old.merges ≡ true }
        ensures effect { Issues F.code self.old self.new slot context op now }
        ensures event { IsIssue F.code self.old self.new slot context op now }
        ensures within { slot < 16 }
    {
        self.facts();
        let _entered = self.is_session(slot);
        self.start(slot, context, op, now);
    }
}
