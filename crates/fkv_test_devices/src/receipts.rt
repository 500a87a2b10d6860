//! Receipts of pages that may be read otherwise than they were written.
ghost use Rattle.std.specs.Prelude.{◌≡◌, [], false, length};

use fkv_device::{Page, Receipt};
use fkv_functions::Refused;

/// A receipt of a page in memory, by which other bytes may be read.
#[derive(Drop)]
pub struct UnsureReceipt {
    pub(crate) number: u64,
    pub(crate) page: u64,
    pub(crate) bytes: Page,
}

impl Receipt for UnsureReceipt {
    ghost keeps = { false };

    ghost stands = { λ r. record {
      number = r.number;
      page = r.page;
      length = length r.bytes;
      bytes = r.bytes;
      mark = [];
    } };

    fn number(&self) -> u64 {
        self.number
    }

    fn page(&self) -> u64 {
        self.page
    }

    fn size(&self) -> usize {
        self.bytes.bytes().len()
    }

    fn same(&self, other: &UnsureReceipt) -> bool {
        self.number == other.number
            && self.page == other.page
            && self.bytes.bytes() == other.bytes.bytes()
    }

    fn again(&self) -> Result<UnsureReceipt, Refused> {
        match self.bytes.again() {
            Err(refused) => Err(refused),
            Ok(bytes) => Ok(UnsureReceipt {
                number: self.number,
                page: self.page,
                bytes,
            }),
        }
    }
}
