//! Readers and writers that fail, and refused growths.
use fkv_device::MemoryDevice;
use fkv_feeds::{run_one, write_table};
use fkv_functions::{Refused, SumFns};
use fkv_partition::Config;
use fkv_streams::{CountedReader, CountedWriter};
use fkv_test_streams::{Breaking, Filling};
use std::alloc::Global;
use std::io::ErrorKind;

const CONFIG: Config = Config {
    id: 1,
    partition_bits: 1,
    bucket_bits: 2,
    page_bits: 8,
    frames: 2,
    turns: 1_000_000,
};

const FEEDS: [&str; 3] = ["a,1\nb,2\n", "c,3\na,4\n", "x\n"];

/// What a run over the first feeds is refused by, where the second fails after so many calls.
fn broken(alloc: Global, feeds: usize, left: u64, kind: ErrorKind) -> Option<Refused> {
    let mut readers = Vec::new(alloc);
    for (index, text) in FEEDS.iter().enumerate() {
        let left = if index == 1 { left } else { 1_000 };
        let mut reader = Breaking::new(text.as_bytes(), 3, left);
        reader.kind = kind;
        if index < feeds && readers.push(CountedReader::new(reader)).is_err() {
            return Some(Refused::NoMemory);
        }
    }
    let device = MemoryDevice::new(alloc);
    run_one(alloc, readers.as_mut_slice(), SumFns, &CONFIG, device).err()
}

const UNREADABLE: Option<Refused> = Some(Refused::Unreadable { number: 2 });

/// How many feeds, the calls after which the second fails, and what the run is refused by. Three calls give its bytes,
/// and those after them say that there are no more.
const BROKEN: [(usize, u64, Option<Refused>); 8] = [
    (1, 0, None),
    (2, 0, UNREADABLE),
    (2, 1, UNREADABLE),
    (2, 2, UNREADABLE),
    (2, 3, UNREADABLE),
    (2, 6, None),
    (3, 1, UNREADABLE),
    (3, 6, Some(Refused::BadRow { feed: 3, row: 1 })),
];

#[test]
fn readers_that_fail(rt: HostRuntime) {
    for (feeds, left, told) in BROKEN {
        let other = broken(rt.alloc(), feeds, left, ErrorKind::Other);
        assert!(rt; other == told, "{feeds} {left}");
    }
    let memory = broken(rt.alloc(), 2, 1, ErrorKind::OutOfMemory);
    assert!(rt; memory == Some(Refused::NoMemory));
}

/// Feeds, how many of them are read, and their table.
type Tabled = ([&'static str; 2], usize, &'static str);

const TWO_FEEDS: Tabled = (["a,1\nb,2\n", "c,3\na,4\n"], 2, "a,5\nb,2\nc,3\n");

const ONE_FEED: Tabled = (["a,5\nb,7\na,-2\n", ""], 1, "a,3\nb,7\n");

/// What writing the table of feeds is refused by, and the bytes that a writer of so much room took.
fn written(alloc: Global, tabled: &Tabled, room: usize) -> (Result<(), Refused>, Vec<u8>) {
    let (feeds, count, _table) = tabled;
    let mut writer = Filling::with_room(alloc, 2, room);
    let mut readers = [
        CountedReader::new(feeds[0].as_bytes()),
        CountedReader::new(feeds[1].as_bytes()),
    ];
    let (read, _rest) = readers.split_at_mut((*count).min(2));
    let device = MemoryDevice::new(alloc);
    let told = match run_one(alloc, read, SumFns, &CONFIG, device) {
        Ok(run) => write_table(alloc, &run.table, &mut CountedWriter::new(&mut writer)),
        Err(refused) => Err(refused),
    };
    (told, writer.text)
}

/// A writer takes the table's front, and that is told where it is not all.
#[test]
fn writers_that_fail(rt: HostRuntime) {
    let (_feeds, _count, table) = TWO_FEEDS;
    for room in 0..16usize {
        let (told, text) = written(rt.alloc(), &TWO_FEEDS, room);
        let wanted = if room < table.len() {
            Err(Refused::Unwritable)
        } else {
            Ok(())
        };
        let front = table.as_bytes().get(..room.min(table.len()));
        assert!(rt; told == wanted && front == Some(text.as_slice()), "{room}");
    }
}

/// Whether the table is written, made again where memory was refused once, before which nothing was written.
fn is_made(alloc: Global, tabled: &Tabled) -> bool {
    let (_feeds, _count, table) = tabled;
    let (told, text) = written(alloc, tabled, 1_000);
    match told {
        Err(Refused::NoMemory) => {
            let (again, more) = written(alloc, tabled, 1_000);
            text.is_empty() && again == Ok(()) && more.as_slice() == table.as_bytes()
        }
        // a writer that takes memory may itself be the one that is refused
        Err(Refused::Unwritable) => table.as_bytes().starts_with(text.as_slice()),
        told => told == Ok(()) && text.as_slice() == table.as_bytes(),
    }
}

/// Run also with each allocation refused in turn, by `rt try --test --fail-alloc N`.
#[test]
fn refused_growths_are_made_again(rt: HostRuntime) {
    for tabled in [&TWO_FEEDS, &ONE_FEED] {
        assert!(rt; is_made(rt.alloc(), tabled));
    }
}
