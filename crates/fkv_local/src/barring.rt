//! A reader that reads no page.
ghost use Rattle.std.specs.Prelude.{◌≡◌};

use fkv_device::{Page, PageReader, Receipt};
use fkv_functions::Refused;
use std::marker::PhantomData;

/// A reader that reads no page: it tells that one was asked for. With it an operation is done in memory, or is refused.
#[derive(Drop)]
pub struct NoPages<R: Receipt> {
    /// How often a page was asked for.
    asked: u64,
    receipts: PhantomData<R>,
}

impl<R: Receipt> NoPages<R> {
    /// None was asked for.
    pub fn new() -> NoPages<R>
        ensures { result.asked ≡ 0 }
    {
        NoPages {
            asked: 0,
            receipts: PhantomData,
        }
    }

    /// How often a page was asked for.
    pub fn asked(&self) -> u64
        ensures { result ≡ self.now.asked }
    {
        self.asked
    }
}

impl<R: Receipt> PageReader for NoPages<R> {
    type Receipt = R;

    ghost failures = { λ r. r.asked };

    ghost part = { λ r. 0 };

    ghost reads = { λ r. r.asked };

    ghost can_fail = { λ receipt size. Unit {0} };

    /// Reads no page.
    ///
    /// # Errors
    ///
    /// `Device` with code 3; `NoMemory` where it can't be counted that a page was asked for.
    fn read(&mut self, receipt: &R, _size: usize) -> Result<Page, Refused> {
        let Some(asked) = self.asked.checked_add(1) else {
            return Err(Refused::NoMemory);
        };
        self.asked = asked;
        let page = receipt.page();
        Err(Refused::Device { code: 3, page })
    }
}
