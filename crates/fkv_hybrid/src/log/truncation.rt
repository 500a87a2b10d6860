//! The log's start, which is cut: Begin moves up to the start of a page.
ghost use Rattle.std.specs.Prelude.{◌≡◌, ◌↔◌, IsTrue, IsOk, IfErr, OnOk, OnErr, drop};
ghost use Rattle.fkv_records.specs.Places.{start_at};
ghost use Rattle.fkv_hybrid.specs.Views.{IsTruncationDue, truncated};

use crate::log::Log;
use fkv_device::Receipt;
use fkv_functions::{Fixed, Refused};
use std::collections::VecDeque;

impl<K: Fixed, V: Fixed, R: Receipt> Log<K, V, R> {
    /// Moves Begin to the start of a page: entries below are dropped. Refused, and then nothing changes: `NotDue` where
    /// Begin would not rise, or would pass Head.
    pub fn truncate(&mut self, page: u64) -> Result<(), Refused>
        ensures ok { IsOk result ↔ IsTruncationDue self.old page }
        ensures effect { OnOk result (self.new ≡ truncated R.keeps self.old (start_at self.old.bits page)) }
        ensures only { IfErr result (λ refused. refused ≡ Refused.NotDue) }
        ensures unchanged { OnErr result (self.new ≡ self.old) }
    {
        if !self.is_truncation_due(page) {
            return Err(Refused::NotDue);
        }
        self.regions.facts();
        let start = self.shape.start(page);
        let more = self.shape.page_of(start) - self.shape.page_of(self.begin);
        let_go(&mut self.receipts, more as usize);
        self.begin = start;
        Ok(())
    }

    /// Whether Begin may move to a page's start. No start is computed of a page above the flushed ones.
    fn is_truncation_due(&self, page: u64) -> bool
        ensures { IsTrue result ↔ IsTruncationDue self.now page }
    {
        self.facts();
        if page > self.unflushed() {
            return false;
        }
        let start = self.shape.start(page);
        self.begin < start && start <= self.regions.offsets().head
    }
}

/// Lets the first of some receipts go.
fn let_go<R: Receipt>(receipts: &mut VecDeque<R>, count: usize)
    ensures { receipts.new.items ≡ drop count receipts.old.items }
{
    for _ in 0..count {
        receipts.pop_front();
    }
}
