//! Reads through a source that tells: which bytes pass, and what is counted and told.
use fkv_functions::Refused;
use fkv_meters::{ProgressSource, ReadProgress};
use fkv_streams::{CountedReader, Source};
use fkv_test_streams::Breaking;
use std::alloc::{AllocError, Global};
use std::io::ErrorKind;
use std::sync::atomic::{AtomicU64, Ordering};
use std::test::Fail;

/// What a hook was told.
#[derive(Drop)]
pub struct Heard {
    reads: AtomicU64,
    bytes: AtomicU64,
    lines: AtomicU64,
}

impl Heard {
    pub fn new() -> Heard {
        Heard {
            reads: AtomicU64::new(0),
            bytes: AtomicU64::new(0),
            lines: AtomicU64::new(0),
        }
    }

    /// How many reads gave bytes, how many bytes, and how many of these are 10.
    pub fn told(&self) -> (u64, u64, u64) {
        (
            self.reads.load(Ordering::SeqCst),
            self.bytes.load(Ordering::SeqCst),
            self.lines.load(Ordering::SeqCst),
        )
    }
}

impl ReadProgress for Heard {
    fn begin(&self) {}

    fn read(&self, bytes: &[u8]) {
        if bytes.is_empty() {
            return;
        }
        let lines = bytes.iter().filter(|byte| **byte == 10).count() as u64;
        self.reads.fetch_add(1, Ordering::SeqCst);
        self.bytes.fetch_add(bytes.len() as u64, Ordering::SeqCst);
        self.lines.fetch_add(lines, Ordering::SeqCst);
    }

    fn end(&self) {}
}

/// The bytes that a source gives in reads of at most so many, until its end or its first refusal.
pub fn all_of<S: Source>(
    alloc: Global,
    source: &mut S,
    room: usize,
) -> Result<(Vec<u8>, Result<(), Refused>), AllocError> {
    let mut text = Vec::new(alloc);
    let mut buffer = vec![in alloc; 0u8; room]?;
    for _ in 0..u64::MAX {
        match source.read(buffer.as_mut_slice()) {
            Ok(0) => return Ok((text, Ok(()))),
            Ok(count) => text.extend_from_slice(&buffer[..count])?,
            Err(refused) => return Ok((text, Err(refused))),
        }
    }
    Ok((text, Ok(())))
}

/// Five lines, one of which is empty, and one that no line end follows.
const TEXT: &[u8] = b"a,1\nbb,22\n\nccc,333\r\n\"d\ne\",4\nf,5";

/// The bytes that a reader gives at most, and a read has room for, and how many reads give bytes.
const PIECES: [(usize, usize, u64); 5] = [
    (1, 1, 31),
    (3, 64, 11),
    (64, 5, 7),
    (7, 7, 5),
    (64, 64, 1),
];

#[test]
fn bytes_pass_and_are_told(rt: HostRuntime) -> Result<(), Fail> {
    for (piece, room, reads) in PIECES {
        let heard = Heard::new();
        let reader = CountedReader::new(Breaking::new(TEXT, piece, u64::MAX));
        let mut source = ProgressSource::new(reader, &heard);
        let (text, ended) = all_of(rt.alloc(), &mut source, room)?;
        assert!(rt;
            text.as_slice() == TEXT && ended == Ok(()),
            "{piece} {room}"
        );
        let told = heard.told();
        let all = TEXT.len() as u64;
        assert!(rt; told == (reads, all, 6), "{piece} {room}: {told:?}");
    }
    Ok(())
}

#[test]
fn a_reader_that_fails_in_the_middle(rt: HostRuntime) -> Result<(), Fail> {
    let heard = Heard::new();
    let reader = CountedReader::new(Breaking::once(TEXT, 4, 3, ErrorKind::Other));
    let mut source = ProgressSource::new(reader, &heard);
    let (front, ended) = all_of(rt.alloc(), &mut source, 64)?;
    let refused = Err(Refused::Unreadable { number: 1 });
    assert!(rt;
        front.as_slice() == &TEXT[..12] && ended == refused,
        "{ended:?}"
    );
    assert!(rt; heard.told() == (3, 12, 3), "{:?}", heard.told());
    let (back, ended) = all_of(rt.alloc(), &mut source, 64)?;
    assert!(rt;
        back.as_slice() == &TEXT[12..] && ended == Ok(()),
        "{ended:?}"
    );
    assert!(rt; heard.told().2 == 6);
    Ok(())
}
