//! A device that counts its pages. What it promises is what the device inside it promises.
ghost use Rattle.std.specs.Prelude.{◌≡◌};

use crate::meters::Meters;
use fkv_device::{Disk, Page, PageReader, PageWriter};
use fkv_functions::Refused;

/// Hands pages on to a writer, and counts those that were written.
#[derive(Drop)]
pub struct MeteredWriter<'a, W> {
    writer: W,
    meters: &'a Meters,
}

impl<'a, W: PageWriter> PageWriter for MeteredWriter<'a, W> {
    type Receipt = W::Receipt;

    ghost failures = { λ w. W.failures w.writer };

    ghost next = { λ w. W.next w.writer };

    ghost part = { λ w. W.part w.writer };

    ghost can_fail = { λ w. W.can_fail w.writer };

    fn write(&mut self, page: u64, bytes: &Page) -> Result<W::Receipt, Refused> {
        let receipt = self.writer.write(page, bytes)?;
        self.meters.count_written(bytes.bytes().len());
        Ok(receipt)
    }

    fn drop_below(&mut self, page: u64) {
        self.writer.drop_below(page);
    }
}

/// Hands reads on to a reader, and counts the pages that were read.
#[derive(Drop)]
pub struct MeteredReader<'a, R> {
    reader: R,
    meters: &'a Meters,
}

impl<'a, R: PageReader> PageReader for MeteredReader<'a, R> {
    type Receipt = R::Receipt;

    ghost failures = { λ r. R.failures r.reader };

    ghost part = { λ r. R.part r.reader };

    ghost reads = { λ r. R.reads r.reader };

    ghost can_fail = { R.can_fail };

    fn read(&mut self, receipt: &R::Receipt, size: usize) -> Result<Page, Refused> {
        let given = self.reader.read(receipt, size)?;
        self.meters.count_read();
        Ok(given)
    }
}

/// A device whose writers and readers count their pages in meters that they share with it.
#[derive(Drop)]
pub struct MeteredDevice<'a, D> {
    device: D,
    meters: &'a Meters,
}

impl<'a, D> MeteredDevice<'a, D> {
    /// This device, counting in these meters.
    pub fn new(device: D, meters: &'a Meters) -> MeteredDevice<'a, D>
        ensures device { result.device ≡ device }
    {
        MeteredDevice { device, meters }
    }
}

impl<'a, D: Disk> Disk for MeteredDevice<'a, D> {
    type Receipt = D::Receipt;

    type Writer = MeteredWriter<'a, D::Writer>;

    type Reader = MeteredReader<'a, D::Reader>;

    ghost failures = { λ d. D.failures d.device };

    fn writer(&mut self, partition: u64) -> Result<MeteredWriter<'a, D::Writer>, Refused> {
        let writer = self.device.writer(partition)?;
        Ok(MeteredWriter {
            writer,
            meters: self.meters,
        })
    }

    fn reader(&mut self, partition: u64) -> Result<MeteredReader<'a, D::Reader>, Refused> {
        let reader = self.device.reader(partition)?;
        Ok(MeteredReader {
            reader,
            meters: self.meters,
        })
    }
}
