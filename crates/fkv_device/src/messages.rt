//! Pages on their way to a device and back.
ghost use Rattle.std.specs.Prelude.{◌≡◌, ◌≢◌, ◌+◌, ◌≤◌, length, IsTrue, IfOk, IfErr, OnOk};
ghost use Rattle.fkv_functions.specs.declared.refusals.Refused.TheVariants as refused;
ghost use Rattle.fkv_device.specs.Failing.{FailsOnlyBy, ReadFailsBy};

use crate::pages::{PageReader, PageWriter};
use crate::receipts::Receipt;
use crate::shared::Page;
use fkv_functions::Refused;
use std::marker::Model;

/// A page that is to be written.
#[derive(Drop)]
pub struct FlushJob {
    pub page: u64,
    pub bytes: Page,
}

/// A page that was written, with its receipt, which tells its number.
///
/// It can be made by [`Written::write`] alone, so on a device that keeps, its receipt stands for its
/// bytes.
#[derive(Drop)]
pub struct Written<R: Receipt> {
    bytes: Page,
    receipt: R,
}

impl<R: Receipt> Model for Written<R> {
    ghost use Rattle.std.specs.Prelude.{◌≡◌, length, IsTrue};
    ghost use Rattle.fkv_device.specs.Standing.{Joined};

    ghost Value = { Joined R };

    ghost view = { λ w. record { bytes = w.bytes; receipt = w.receipt } };

    ghost invariant = { λ w. ((R.stands w.receipt).length ≡ length w.bytes)
        × (IsTrue R.keeps → (R.stands w.receipt).bytes ≡ w.bytes) };
}

impl<R: Receipt> Written<R> {
    /// Writes a page.
    ///
    /// # Errors
    ///
    /// As for [`PageWriter::write`].
    pub fn write<W: PageWriter<Receipt = R>>(
        writer: &mut W,
        job: FlushJob,
    ) -> Result<Written<R>, Refused>
        ensures page { IfOk result (λ w. (R.stands w.receipt).page ≡ job.page) }
        ensures bytes { IfOk result (λ w. w.bytes ≡ job.bytes) }
        ensures number { IfOk result (λ w. (R.stands w.receipt).number ≡ W.next writer.old) }
        ensures next { OnOk result (W.next writer.new ≡ W.next writer.old + 1) }
        ensures same_next { IfErr result (λ _. W.next writer.new ≡ W.next writer.old) }
        ensures steady { OnOk result (W.failures writer.new ≡ W.failures writer.old) }
        ensures counted { IfErr result
            (FailsOnlyBy 2 job.page (W.failures writer.old) (W.failures writer.new)) }
        ensures caused { IfErr result (λ e. e ≢ refused.NoMemory → W.can_fail writer.old) }
    {
        let FlushJob { page, bytes } = job;
        let receipt = writer.write(page, &bytes)?;
        Ok(Written { bytes, receipt })
    }

    /// The page's number.
    pub fn page(&self) -> u64
        ensures { result ≡ (R.stands self.now.receipt).page }
    {
        self.receipt.page()
    }

    /// The page's bytes.
    pub fn bytes(&self) -> &[u8]
        ensures { result.now ≡ self.now.bytes }
    {
        self.bytes.bytes()
    }

    /// The receipt, by which the page is read from now on.
    pub fn into_receipt(self) -> R
        ensures receipt { result ≡ self.receipt }
        ensures length { (R.stands result).length ≡ length self.bytes }
        ensures kept { IsTrue R.keeps → (R.stands result).bytes ≡ self.bytes }
    {
        let Written { bytes: _, receipt } = self;
        receipt
    }
}

/// A page that was read, with its receipt.
///
/// It can be made by [`Loaded::fetch`] alone, so on a device that keeps, its bytes are those that its
/// receipt stands for.
#[derive(Drop)]
pub struct Loaded<R: Receipt> {
    page: Page,
    receipt: R,
}

impl<R: Receipt> Model for Loaded<R> {
    ghost use Rattle.std.specs.Prelude.{◌≡◌, length, IsTrue};
    ghost use Rattle.fkv_device.specs.Standing.{Joined};

    ghost Value = { Joined R };

    ghost view = { λ l. record { bytes = l.page; receipt = l.receipt } };

    ghost invariant = { λ l. (length l.page ≡ (R.stands l.receipt).length)
        × (IsTrue R.keeps → l.page ≡ (R.stands l.receipt).bytes) };
}

impl<R: Receipt> Loaded<R> {
    /// Reads a page of `size` bytes.
    ///
    /// # Errors
    ///
    /// As for [`PageReader::read`], `NoMemory` for the receipt too.
    pub fn fetch<P: PageReader<Receipt = R>>(
        reader: &mut P,
        receipt: &R,
        size: usize,
    ) -> Result<Loaded<R>, Refused>
        ensures receipt { IfOk result (λ l. R.stands l.receipt ≡ R.stands receipt.now) }
        ensures size { IfOk result (λ l. length l.bytes ≡ size) }
        ensures steady { OnOk result (P.failures reader.new ≡ P.failures reader.old) }
        ensures counted { IfErr result
            (ReadFailsBy (R.stands receipt.now).page (P.failures reader.old)
            (P.failures reader.new)) }
        ensures once { P.reads reader.new ≤ P.reads reader.old + 1 }
        ensures caused { IfErr result (λ e. e ≢ refused.NoMemory → P.can_fail receipt.now size) }
    {
        let kept = receipt.again()?;
        let page = reader.read(receipt, size)?;
        Ok(Loaded {
            page,
            receipt: kept,
        })
    }

    /// The same page with a receipt that stands for the same, held once more: nothing is read, and no byte is copied.
    ///
    /// # Errors
    ///
    /// `NoMemory` where the page or its receipt can't be shared once more.
    pub fn again(&self) -> Result<Loaded<R>, Refused>
        ensures receipt { IfOk result (λ l. R.stands l.receipt ≡ R.stands self.now.receipt) }
        ensures bytes { IfOk result (λ l. l.bytes ≡ self.now.bytes) }
        ensures memory { IfErr result (λ e. e ≡ refused.NoMemory) }
    {
        let page = self.page.again()?;
        let receipt = self.receipt.again()?;
        Ok(Loaded { page, receipt })
    }

    /// The receipt that the page was read by.
    pub fn receipt(&self) -> &R
        ensures receipt { result.now ≡ self.now.receipt }
        ensures length { (R.stands result.now).length ≡ length self.now.bytes }
        ensures kept { IsTrue R.keeps → (R.stands result.now).bytes ≡ self.now.bytes }
    {
        &self.receipt
    }

    /// The page's bytes.
    pub fn bytes(&self) -> &[u8]
        ensures { result.now ≡ self.now.bytes }
    {
        self.page.bytes()
    }
}
