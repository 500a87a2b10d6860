//! What devices did, in counts that threads share.
use std::sync::atomic::{AtomicU64, Ordering};

/// What the devices that count here did. Each count is kept modulo 2^64.
#[derive(Drop)]
pub struct Meters {
    pages_written: AtomicU64,
    pages_read: AtomicU64,
    bytes_written: AtomicU64,
}

/// What meters showed. While other threads use a device, each count may be of another moment.
#[derive(Clone, Copy, PartialEq, Eq, Debug)]
pub struct MeterReadings {
    /// The pages that were written. A write that failed counts as none.
    pub pages_written: u64,
    /// The pages that were read. A read that failed counts as none.
    pub pages_read: u64,
    /// The bytes of the pages that were written.
    pub bytes_written: u64,
}

impl Meters {
    /// Meters that have counted nothing yet.
    pub fn new() -> Meters {
        Meters {
            pages_written: AtomicU64::new(0),
            pages_read: AtomicU64::new(0),
            bytes_written: AtomicU64::new(0),
        }
    }

    /// What was counted so far.
    pub fn seen(&self) -> MeterReadings {
        MeterReadings {
            pages_written: self.pages_written.load(Ordering::SeqCst),
            pages_read: self.pages_read.load(Ordering::SeqCst),
            bytes_written: self.bytes_written.load(Ordering::SeqCst),
        }
    }

    /// Counts a page of so many bytes that was written.
    pub(crate) fn count_written(&self, bytes: usize) {
        self.pages_written.fetch_add(1, Ordering::SeqCst);
        self.bytes_written.fetch_add(bytes as u64, Ordering::SeqCst);
    }

    /// Counts a page that was read.
    pub(crate) fn count_read(&self) {
        self.pages_read.fetch_add(1, Ordering::SeqCst);
    }
}
