//! Feeds, and the tables that they come to.
use crate::rising::RisingFns;
use fkv_device::MemoryDevice;
use fkv_feeds::{run_one, write_table};
use fkv_functions::{CappedSumFns, CountFns, MaxFns, Mergeable, Name, Refused, SumFns};
use fkv_partition::Config;
use fkv_streams::{CountedReader, CountedWriter};
use itoa::Integer;
use std::alloc::Global;

/// The program's own configuration.
const USUAL: Config = Config {
    id: 1,
    partition_bits: 2,
    bucket_bits: 10,
    page_bits: 16,
    frames: 4,
    turns: 1_000_000,
};

/// One bucket in each of two partitions, and small pages.
const TIGHT: Config = Config {
    id: 1,
    partition_bits: 1,
    bucket_bits: 0,
    page_bits: 8,
    frames: 2,
    turns: 1_000_000,
};

/// What is done with the amounts.
#[derive(Clone, Copy)]
enum Kind {
    Count,
    Sum,
    Max,
    /// A sum that declines to leave 0 to 1,000,000.
    Capped,
    /// The last amount that rose.
    Rising,
}

/// The text of the table of these feeds.
fn text_of<F: Mergeable<Key = Name, Input = i64>>(
    alloc: Global,
    functions: F,
    feeds: &[&str],
    config: &Config,
) -> Result<Vec<u8>, Refused>
where
    F::Value: Integer,
{
    let mut readers = Vec::new(alloc);
    for feed in feeds {
        if readers.push(CountedReader::new(feed.as_bytes())).is_err() {
            return Err(Refused::NoMemory);
        }
    }
    let device = MemoryDevice::new(alloc);
    let run = match run_one(alloc, readers.as_mut_slice(), functions, config, device) {
        Ok(run) => run,
        Err(refused) => return Err(refused),
    };
    let mut text = Vec::new(alloc);
    match write_table(alloc, &run.table, &mut CountedWriter::new(&mut text)) {
        Ok(()) => Ok(text),
        Err(refused) => Err(refused),
    }
}

/// The same, by what is done with the amounts.
fn text_by(alloc: Global, kind: Kind, feeds: &[&str], config: &Config) -> Result<Vec<u8>, Refused> {
    match kind {
        Kind::Count => text_of(alloc, CountFns, feeds, config),
        Kind::Sum => text_of(alloc, SumFns, feeds, config),
        Kind::Max => text_of(alloc, MaxFns, feeds, config),
        Kind::Capped => text_of(alloc, CappedSumFns, feeds, config),
        Kind::Rising => text_of(alloc, RisingFns, feeds, config),
    }
}

/// Whether these feeds come to this table, in either configuration.
fn comes_to(alloc: Global, kind: Kind, feeds: &[&str], table: &str) -> bool {
    [USUAL, TIGHT].iter().all(|config| match text_by(alloc, kind, feeds, config) {
        Ok(text) => text.as_slice() == table.as_bytes(),
        Err(_) => false,
    })
}

/// What is done with the amounts, the feeds, and their table.
const TABLES: [(Kind, &[&str], &str); 22] = [
    (Kind::Sum, &["a,5\nb,7\na,-2\n"], "a,3\nb,7\n"),
    (Kind::Count, &["a,5\nb,7\na,-2\n"], "a,2\nb,1\n"),
    (Kind::Max, &["a,5\nb,7\na,-2\n"], "a,5\nb,7\n"),
    (Kind::Sum, &[""], ""),
    (Kind::Sum, &["b,1", "a,2\nb,3", ""], "a,2\nb,4\n"),
    (
        Kind::Sum,
        &["a,9223372036854775807\na,9223372036854775807\n"],
        "a,18446744073709551614\n",
    ),
    (
        Kind::Sum,
        &["a,-9223372036854775808\na,-9223372036854775808\n"],
        "a,-18446744073709551616\n",
    ),
    (
        Kind::Sum,
        &["abcdefghijklmnopqrstuvwxyz01234,1\n"],
        "abcdefghijklmnopqrstuvwxyz01234,1\n",
    ),
    (Kind::Sum, &["a,+0005\na,-0\n"], "a,5\n"),
    // 18 digits and 19, with and without a sign
    (
        Kind::Sum,
        &["a,999999999999999999\nb,-999999999999999999\nc,+999999999999999999\n"],
        "a,999999999999999999\nb,-999999999999999999\nc,999999999999999999\n",
    ),
    (
        Kind::Max,
        &["a,1000000000000000000\nb,-1000000000000000001\nc,0000000000000000007\n"],
        "a,1000000000000000000\nb,-1000000000000000001\nc,7\n",
    ),
    // a line end is LF, CRLF or a lone CR, and an empty line is no row
    (
        Kind::Sum,
        &["a,1\r\nb,2\rc,3\n\n\r\na,4"],
        "a,5\nb,2\nc,3\n",
    ),
    // quotes
    (
        Kind::Sum,
        &["\"x,y\",1\n\"p\"\"q\",\"2\"\n\"m\nn\",3\n"],
        "\"m\nn\",3\n\"p\"\"q\",2\n\"x,y\",1\n",
    ),
    // a NUL byte, and bytes in order
    (Kind::Sum, &["a\0,1\na,2\nB,3\n"], "B,3\na,2\na\0,1\n"),
    // a byte order mark at the front of a feed is no part of a key
    (Kind::Sum, &["\u{feff}a,1\n", "a,2\n"], "a,3\n"),
    (Kind::Max, &["a,-7\nb,-3\na,-9\nb,4"], "a,-7\nb,4\n"),
    (
        Kind::Count,
        &["h,0\ng,0\nf,0\ne,0\nd,0\nc,0\nb,0\na,0\nh,0\n"],
        "a,1\nb,1\nc,1\nd,1\ne,1\nf,1\ng,1\nh,2\n",
    ),
    // a declined row leaves its key: where it stands, where it was evicted, and where it has no value
    (Kind::Capped, &["a,5\na,-9\na,2\n"], "a,7\n"),
    (Kind::Capped, &["a,-1\nb,1000001\n", "c,-5\nc,4\n"], "c,4\n"),
    (
        Kind::Capped,
        &[
            "a,9\nb,1\nc,1\nd,1\ne,1\nf,1\ng,1\nh,1\ni,1\nj,1\nk,1\nl,1\nm,1\nn,1\no,1\np,1\nq,1\nr,1\na,-10\nb,999999\nb,1\nc,1000000\na,-9\n",
        ],
        "a,0\nb,1000000\nc,1\nd,1\ne,1\nf,1\ng,1\nh,1\ni,1\nj,1\nk,1\nl,1\nm,1\nn,1\no,1\np,1\nq,1\nr,1\n",
    ),
    (
        Kind::Rising,
        &["a,-1\na,0\na,0\na,5\na,4\n", "b,-2\na,5\n"],
        "a,5\n",
    ),
    (
        Kind::Rising,
        &[
            "a,3\nb,1\nc,1\nd,1\ne,1\nf,1\ng,1\nh,1\ni,1\nj,1\nk,1\nl,1\nm,1\nn,1\no,1\np,1\nq,1\nr,1\na,2\nb,7\nb,7\ns,-1\n",
        ],
        "a,3\nb,7\nc,1\nd,1\ne,1\nf,1\ng,1\nh,1\ni,1\nj,1\nk,1\nl,1\nm,1\nn,1\no,1\np,1\nq,1\nr,1\n",
    ),
];

#[test]
fn feeds(rt: HostRuntime) {
    for (kind, feeds, table) in TABLES {
        assert!(rt; comes_to(rt.alloc(), kind, feeds, table), "{table}");
    }
}

/// Feeds, and what they are refused by.
const REFUSED: [(&[&str], u64, u64); 15] = [
    // a key of 32 bytes, an empty key, amounts that are none, and three fields
    (&["a,1\nabcdefghijklmnopqrstuvwxyz012345,1\n"], 1, 2),
    (&["a,1\n,1\n"], 1, 2),
    (&["a,1\na,5x\n"], 1, 2),
    (&["a,1\na,9223372036854775808\n"], 1, 2),
    (&["a,1\na,1,1\n"], 1, 2),
    (&["a,1\na,-9223372036854775809\n"], 1, 2),
    (&["a,1\na,\n"], 1, 2),
    (&["a,1\na, 1\n"], 1, 2),
    (&["a,1\na,--1\n"], 1, 2),
    (&["a,1\na,-\n"], 1, 2),
    (&["a,1\na,12345678/\n"], 1, 2),
    (&["a,1\na,999999999999999999:\n"], 1, 2),
    (&["a\n"], 1, 1),
    (&["a,1\n", "b,2\n\nc\n"], 2, 2),
    // of two bad rows the first counts
    (&["a,1\nb,2\n", "x\n", "y\n"], 2, 1),
];

#[test]
fn bad_rows(rt: HostRuntime) {
    for (feeds, feed, row) in REFUSED {
        let told = text_by(rt.alloc(), Kind::Sum, feeds, &USUAL);
        let is_told = told.err() == Some(Refused::BadRow { feed, row });
        assert!(rt; is_told, "{feed} {row}");
    }
}

/// How many empty feeds, the partition bits, and what a run over them is refused by.
const NUMBERS: [(usize, u64, Option<Refused>); 5] = [
    (0, 2, Some(Refused::BadConfig)),
    (1, 2, None),
    (64, 2, None),
    (65, 2, Some(Refused::BadConfig)),
    (1, 7, Some(Refused::BadConfig)),
];

#[test]
fn numbers_of_feeds(rt: HostRuntime) {
    for (count, partition_bits, told) in NUMBERS {
        let config = Config {
            partition_bits,
            ..USUAL
        };
        let feeds = [""; 65];
        let come = text_by(rt.alloc(), Kind::Sum, &feeds[..count.min(65)], &config);
        assert!(rt; come.err() == told, "{count} {partition_bits}");
    }
}
