//! Readers of pages in memory and on another device.
ghost use Rattle.std.specs.Prelude.{◌≡◌, ◌+◌};
ghost use Rattle.fkv_either.specs.Either.{failures_of, part_at, CanFailToRead};

use crate::either::Either;
use crate::keeping::Keeping;
use crate::receipts::EitherReceipt;
use fkv_device::failures::Failures;
use fkv_device::{MemoryReader, Page, PageReader, Receipt};
use fkv_functions::Refused;
use std::marker::PhantomData;

/// Reads pages in memory, and those of the other device where there is one.
#[derive(Drop)]
pub struct EitherReader<R: PageReader, K: Keeping> {
    pub(crate) memory: MemoryReader,
    pub(crate) other: Option<R>,
    /// How often it was asked for a page of a device that it has not.
    pub(crate) strange: Failures,
    pub(crate) of: PhantomData<K>,
}

impl<R: PageReader, K: Keeping> PageReader for EitherReader<R, K> {
    type Receipt = EitherReceipt<R::Receipt, K>;

    ghost failures = { λ r. ⟦<MemoryReader as PageReader>⟧.failures r.memory + failures_of R.failures r.other + r.strange };

    ghost part = { λ r. part_at ⟦<MemoryReader as PageReader>⟧.part R.part r.memory r.other };

    // those that the other device was asked for
    ghost reads = { λ r. failures_of R.reads r.other };

    ghost can_fail = { λ r size. CanFailToRead ⟦<MemoryReader as PageReader>⟧.can_fail r.either size };

    fn read(
        &mut self,
        receipt: &EitherReceipt<R::Receipt, K>,
        size: usize,
    ) -> Result<Page, Refused> {
        match &receipt.either {
            Either::Memory(receipt) => self.memory.read(receipt, size),
            Either::Other(receipt) => match &mut self.other {
                Some(other) => other.read(receipt, size),
                None => {
                    let page = receipt.page();
                    Err(self.strange.count(Refused::Device { code: 3, page }))
                }
            },
        }
    }
}
