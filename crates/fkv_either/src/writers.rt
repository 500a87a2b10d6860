//! Writers of pages to memory, or to another device.
ghost use Rattle.std.specs.Prelude.{◌≡◌, true, if◌then◌else◌};
ghost use Rattle.fkv_either.specs.Either.{is_memory, number_at, HoldsAt};

use crate::either::Either;
use crate::keeping::Keeping;
use crate::receipts::EitherReceipt;
use fkv_device::{MemoryWriter, Page, PageWriter};
use fkv_functions::Refused;
use std::marker::PhantomData;

/// Writes pages to memory, or to the other device. Where the marker keeps, it writes to memory.
#[derive(Drop)]
pub struct EitherWriter<W: PageWriter, K: Keeping> {
    pub(crate) either: Either<MemoryWriter, W>,
    pub(crate) of: PhantomData<K>,
    ghost kept: { (if K.keeps then is_memory either else true) ≡ true },
}

impl<W: PageWriter, K: Keeping> PageWriter for EitherWriter<W, K> {
    type Receipt = EitherReceipt<W::Receipt, K>;

    ghost failures = { λ w. number_at ⟦<MemoryWriter as PageWriter>⟧.failures W.failures w.either };

    ghost next = { λ w. number_at ⟦<MemoryWriter as PageWriter>⟧.next W.next w.either };

    ghost part = { λ w. number_at ⟦<MemoryWriter as PageWriter>⟧.part W.part w.either };

    ghost can_fail = { λ w. HoldsAt ⟦<MemoryWriter as PageWriter>⟧.can_fail W.can_fail w.either };

    fn write(&mut self, page: u64, bytes: &Page) -> Result<EitherReceipt<W::Receipt, K>, Refused> {
        let either = match &mut self.either {
            Either::Memory(writer) => Either::Memory(writer.write(page, bytes)?),
            Either::Other(writer) => Either::Other(writer.write(page, bytes)?),
        };
        Ok(EitherReceipt {
            either,
            of: PhantomData,
        })
    }

    fn drop_below(&mut self, page: u64) {
        match &mut self.either {
            Either::Memory(writer) => writer.drop_below(page),
            Either::Other(writer) => writer.drop_below(page),
        }
    }
}
