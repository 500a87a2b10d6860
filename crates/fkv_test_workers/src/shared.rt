//! Feeds that all workers share, in blocks.
use crate::tables::{LETTERS, SMALL};
use fkv_device::MemoryDevice;
use fkv_feeds::{RowMode, write_table};
use fkv_functions::{Refused, SumFns};
use fkv_histories::{Audited, Plain, Recorder};
use fkv_partition::Config;
use fkv_store::{Gate, Open, Place};
use fkv_streams::{CountedReader, CountedWriter};
use fkv_test_streams::Breaking;
use fkv_workers::run_blocks;
use std::alloc::Global;
use std::io::{self, Read, Write};
use std::rt::Clock;
use std::sync::Wait;
use std::sync::atomic::{AtomicBool, AtomicU64, Ordering};
use std::test::Fail;
use std::thread;
use std::thread::Threads;

/// How often a worker that is held looks, at the most.
const TURNS: u64 = 10_000_000;

/// Holds whoever comes until a flag is set. It is told where that took too long.
fn hold(until: &AtomicBool, failed: &AtomicBool) {
    for _ in 0..TURNS {
        if until.load(Ordering::SeqCst) {
            return;
        }
        thread::yield_now();
    }
    failed.store(true, Ordering::SeqCst);
}

/// The text of the table of sums of these feeds, by so many workers that share them.
fn summed<
    H: Recorder<SumFns> + Send,
    R: Read + Drop + Send,
    G: Gate + Sync,
    T: Threads + Wait + Clock + Sync,
>(
    rt: &T,
    alloc: Global,
    feeds: Vec<CountedReader<R>>,
    workers: usize,
    config: &Config,
    gate: &G,
) -> Result<Vec<u8>, Refused> {
    let device = MemoryDevice::new(alloc);
    let mode = RowMode::Update;
    let mut feeds = feeds;
    let run = run_blocks::<_, _, _, H, _, _>(
        rt, alloc, &mut feeds, workers, SumFns, config, device, gate, mode,
    )?;
    let mut text = Vec::new(alloc);
    write_table(alloc, &run.table, &mut CountedWriter::new(&mut text))?;
    Ok(text)
}

/// Of texts.
fn summed_texts<H: Recorder<SumFns> + Send, G: Gate + Sync, T: Threads + Wait + Clock + Sync>(
    rt: &T,
    alloc: Global,
    texts: &[&[u8]],
    workers: usize,
    config: &Config,
    gate: &G,
) -> Result<Vec<u8>, Refused> {
    let mut feeds = Vec::new(alloc);
    for text in texts {
        let Ok(()) = feeds.push(CountedReader::new(*text)) else {
            return Err(Refused::NoMemory);
        };
    }
    summed::<H, _, _, _>(rt, alloc, feeds, workers, config, gate)
}

/// So many rows of 34 bytes over three keys, of which these, counted from 1, are none. A block has some 7,700 of them.
fn rows(alloc: Global, count: u64, bad: &[u64]) -> Result<Vec<u8>, Fail> {
    let mut text = Vec::new(alloc);
    for row in 1..=count {
        if bad.contains(&row) {
            writeln!(text, "this_row_has_a_key_and_no_amount")?;
        } else {
            writeln!(text, "a_key_of_thirty_one_bytes_num_{},1", row % 3)?;
        }
    }
    Ok(text)
}

/// The table of these rows, so many of each key.
fn table(alloc: Global, each: u64) -> Result<Vec<u8>, Fail> {
    let mut text = Vec::new(alloc);
    for key in 0..3 {
        writeln!(text, "a_key_of_thirty_one_bytes_num_{key},{each}")?;
    }
    Ok(text)
}

/// How many rows each feed has, a third of them of each key, by how many workers, and how many rows a key has.
const SHAPES: [(&[u64], usize, u64); 5] = [
    (&[30_000], 4, 10_000),
    (&[9], 14, 3),
    (&[3, 24_000, 3, 24_000], 2, 16_002),
    (&[3; 64], 14, 64),
    (&[30_000, 3], 1, 10_001),
];

#[test]
fn shapes(rt: HostRuntime) -> Result<(), Fail> {
    let alloc = rt.alloc();
    for (counts, workers, each) in SHAPES {
        let mut texts = Vec::new(alloc);
        for count in counts {
            texts.push(rows(alloc, *count, &[])?)?;
        }
        let mut slices: Vec<&[u8]> = Vec::new(alloc);
        for text in &texts {
            slices.push(text.as_slice())?;
        }
        let wanted = table(alloc, each)?;
        let feeds = slices.as_slice();
        let audited = summed_texts::<Audited<SumFns>, _, _>(
            &rt, alloc, feeds, workers, &SMALL, &Open,
        )?;
        assert!(rt;
            audited.as_slice() == wanted.as_slice(),
            "{counts:?} {workers}"
        );
        let plain = summed_texts::<Plain, _, _>(&rt, alloc, feeds, workers, &SMALL, &Open)?;
        assert!(rt;
            plain.as_slice() == wanted.as_slice(),
            "{counts:?} {workers}"
        );
    }
    Ok(())
}

/// More calls than give any of these feeds.
const ALL: u64 = 1_000_000;

/// A feed: how many rows it has, which of them are none, and the calls of 8,192 bytes before the one that fails.
type Faulty = (u64, &'static [u64], u64);

/// Feeds, by how many workers, and the feed that is told with its row that is none, whatever the threads do; row 0 where it is told as
/// unreadable.
const FAULTS: [(&[Faulty], usize, (u64, u64)); 11] = [
    (&[(20_000, &[19_000], ALL)], 3, (1, 19_000)),
    (&[(20_000, &[1], ALL), (3, &[1], ALL)], 2, (1, 1)),
    // the first in the order of the feeds, whoever is first
    (&[(20_000, &[15_000], ALL), (3, &[1], ALL)], 2, (1, 15_000)),
    (
        &[(20_000, &[], ALL), (3, &[2], ALL), (3, &[1], ALL)],
        3,
        (2, 2),
    ),
    (
        &[(3, &[], ALL), (3, &[], ALL), (20_000, &[16_000], ALL)],
        1,
        (3, 16_000),
    ),
    // though another worker has read a feed behind, or the feed's next block
    (&[(20_000, &[19_000], ALL), (3, &[], ALL)], 2, (1, 19_000)),
    (&[(20_000, &[7_000], ALL)], 2, (1, 7_000)),
    // the first block of a feed, whoever has it: the worker that begins with another feed comes to the second one
    (
        &[(3, &[], ALL), (20_000, &[7_000, 7_800], ALL)],
        2,
        (2, 7_000),
    ),
    (&[(3, &[], ALL), (20_000, &[7_000], 37)], 2, (2, 7_000)),
    // streams that fail
    (&[(20_000, &[], 37), (3, &[1], ALL)], 2, (1, 0)),
    (&[(3, &[2], ALL), (20_000, &[], 0)], 2, (1, 2)),
];

#[test]
fn first_fault_of_the_feeds(rt: HostRuntime) -> Result<(), Fail> {
    let alloc = rt.alloc();
    for (faulty, workers, (feed, row)) in FAULTS {
        let mut texts = Vec::new(alloc);
        for (count, bad, calls) in faulty {
            texts.push((rows(alloc, *count, bad)?, *calls))?;
        }
        let mut feeds = Vec::new(alloc);
        for (text, calls) in &texts {
            let feed = Breaking::new(text.as_slice(), 8_192, *calls);
            feeds.push(CountedReader::new(feed))?;
        }
        let told = summed::<Plain, _, _, _>(&rt, alloc, feeds, workers, &SMALL, &Open);
        let wanted = match row {
            0 => Refused::Unreadable { number: feed },
            row => Refused::BadRow { feed, row },
        };
        assert!(rt; told == Err(wanted), "{faulty:?} {workers}");
    }
    Ok(())
}

#[test]
fn shared_out_of_range(rt: HostRuntime) -> Result<(), Fail> {
    let alloc = rt.alloc();
    let feed: &[u8] = b"a,1\n";
    let none: [&[u8]; 0] = [];
    let bad = Err(Refused::BadConfig);
    assert!(rt; summed_texts::<Plain, _, _>(&rt, alloc, &[feed], 0, &SMALL, &Open) == bad);
    assert!(rt; summed_texts::<Plain, _, _>(&rt, alloc, &[feed], 15, &SMALL, &Open) == bad);
    assert!(rt; summed_texts::<Plain, _, _>(&rt, alloc, &none, 1, &SMALL, &Open) == bad);
    assert!(rt; summed_texts::<Plain, _, _>(&rt, alloc, &[feed; 65], 1, &SMALL, &Open) == bad);
    Ok(())
}

/// Holds each of two workers at its first answer until the other one has one.
#[derive(Drop)]
struct Both {
    are_answered: [AtomicBool; 2],
    failed: AtomicBool,
}

impl Gate for Both {
    fn pass(&self, worker: u32, place: Place) {
        if place != Place::Answered {
            return;
        }
        let [first, second] = &self.are_answered;
        let (own, other) = match worker {
            0 => (first, second),
            1 => (second, first),
            _ => return,
        };
        if !own.swap(true, Ordering::SeqCst) {
            hold(other, &self.failed);
        }
    }
}

/// Two workers read one feed of two blocks.
#[test]
fn one_feed_by_two(rt: HostRuntime) -> Result<(), Fail> {
    let alloc = rt.alloc();
    let text = rows(alloc, 12_000, &[])?;
    let gate = Both {
        are_answered: [AtomicBool::new(false), AtomicBool::new(false)],
        failed: AtomicBool::new(false),
    };
    let summed = summed_texts::<Plain, _, _>(&rt, alloc, &[text.as_slice()], 2, &SMALL, &gate)?;
    assert!(rt; !gate.failed.load(Ordering::SeqCst));
    assert!(rt; summed.as_slice() == table(alloc, 4_000)?.as_slice());
    Ok(())
}

/// A pipe that pauses: it says so, and goes on where it is told to.
#[derive(Drop)]
struct Pipe<'a> {
    text: &'a [u8],
    /// How many bytes come before it pauses, if it does.
    left: Option<usize>,
    pausing: &'a Pausing,
}

/// What a pipe that pauses and others tell each other.
#[derive(Drop)]
struct Pausing {
    has_paused: AtomicBool,
    answers: AtomicU64,
    goes_on: AtomicBool,
    failed: AtomicBool,
}

impl Read for Pipe<'_> {
    fn read(&mut self, buf: &mut [u8]) -> io::Result<usize> {
        let most = match self.left {
            None => buf.len(),
            Some(0) => {
                self.pausing.has_paused.store(true, Ordering::SeqCst);
                hold(&self.pausing.goes_on, &self.pausing.failed);
                self.left = None;
                buf.len()
            }
            Some(left) => buf.len().min(left),
        };
        let count = most.min(self.text.len());
        let (given, rest) = self.text.split_at(count);
        buf[..count].copy_from_slice(given);
        self.text = rest;
        self.left = self.left.map(|left| left.saturating_sub(count));
        Ok(count)
    }
}

/// The number of the last of the rows of a partition that are made updates together, counted from 0.
const LAST_TOGETHER: u64 = 63;

impl Gate for Pausing {
    fn pass(&self, worker: u32, place: Place) {
        if worker != 1 {
            return;
        }
        match place {
            Place::Start => hold(&self.has_paused, &self.failed),
            Place::Answered => {
                if self.answers.fetch_add(1, Ordering::SeqCst) == LAST_TOGETHER {
                    self.goes_on.store(true, Ordering::SeqCst);
                }
            }
            _ => {}
        }
    }
}

/// What a pipe gives before it pauses, and another one's rows meanwhile.
fn paused<T: Threads + Wait + Clock + Sync>(
    rt: &T,
    alloc: Global,
    text: &[u8],
    left: usize,
) -> Result<bool, Fail> {
    let mut letters = Vec::new(alloc);
    for _ in 0..4 {
        letters.extend_from_slice(LETTERS)?;
    }
    let pausing = Pausing {
        has_paused: AtomicBool::new(false),
        answers: AtomicU64::new(0),
        goes_on: AtomicBool::new(false),
        failed: AtomicBool::new(false),
    };
    let mut feeds = Vec::new(alloc);
    for (text, left) in [(text, Some(left)), (letters.as_slice(), None)] {
        feeds.push(CountedReader::new(Pipe {
            text,
            left,
            pausing: &pausing,
        }))?;
    }
    let few = Config {
        turns: 10_000,
        ..SMALL
    };
    let summed = summed::<Plain, _, _, _>(rt, alloc, feeds, 2, &few, &pausing)?;
    Ok(!summed.is_empty() && !pausing.failed.load(Ordering::SeqCst))
}

/// While one worker waits for a pipe that pauses, at its start or later, another one's rows move pages of the partition that the first
/// one has updated.
#[test]
fn pipe_that_pauses(rt: HostRuntime) -> Result<(), Fail> {
    let long = rows(rt.alloc(), 12_000, &[])?;
    assert!(rt; paused(&rt, rt.alloc(), long.as_slice(), 0)?);
    assert!(rt; paused(&rt, rt.alloc(), long.as_slice(), 300_000)?);
    Ok(())
}
