//! Receipts of pages that are in memory, or on another device.
ghost use Rattle.std.specs.Prelude.{◌≡◌, ◌||◌, true, if◌then◌else◌};
ghost use Rattle.fkv_either.specs.Either.{is_memory, stands_at};

use crate::either::Either;
use crate::keeping::Keeping;
use fkv_device::{MemoryReceipt, Receipt};
use fkv_functions::Refused;
use std::marker::PhantomData;

/// A receipt of a page in memory, or of one on the other device. Where the marker keeps, it is of a page in memory; it keeps then, and
/// where the other device does.
#[derive(Drop)]
pub struct EitherReceipt<R: Receipt, K: Keeping> {
    pub(crate) either: Either<MemoryReceipt, R>,
    pub(crate) of: PhantomData<K>,
    ghost kept: { (if K.keeps then is_memory either else true) ≡ true },
}

impl<R: Receipt, K: Keeping> Receipt for EitherReceipt<R, K> {
    ghost stands = { λ r. stands_at ⟦<MemoryReceipt as Receipt>⟧.stands R.stands r.either };

    ghost keeps = { K.keeps || R.keeps };

    fn number(&self) -> u64 {
        match &self.either {
            Either::Memory(receipt) => receipt.number(),
            Either::Other(receipt) => receipt.number(),
        }
    }

    fn page(&self) -> u64 {
        match &self.either {
            Either::Memory(receipt) => receipt.page(),
            Either::Other(receipt) => receipt.page(),
        }
    }

    fn size(&self) -> usize {
        match &self.either {
            Either::Memory(receipt) => receipt.size(),
            Either::Other(receipt) => receipt.size(),
        }
    }

    fn same(&self, other: &EitherReceipt<R, K>) -> bool {
        match &self.either {
            Either::Memory(left) => match &other.either {
                Either::Memory(right) => left.same(right),
                Either::Other(_) => false,
            },
            Either::Other(left) => match &other.either {
                Either::Memory(_) => false,
                Either::Other(right) => left.same(right),
            },
        }
    }

    fn again(&self) -> Result<EitherReceipt<R, K>, Refused> {
        let either = match &self.either {
            Either::Memory(receipt) => Either::Memory(receipt.again()?),
            Either::Other(receipt) => Either::Other(receipt.again()?),
        };
        Ok(EitherReceipt {
            either,
            of: PhantomData,
        })
    }
}
