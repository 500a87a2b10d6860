//! Blocks of every size, and streams that fail.
use fkv_blocks::{BlockSource, Blocks, take_block};
use fkv_feed_rows::{RowSink, read_feed};
use fkv_functions::{Name, Refused};
use fkv_streams::CountedReader;
use fkv_test_streams::Breaking;
use std::alloc::Global;
use std::marker::Brand;
use std::sync::{Mutex, Wait};

/// The text of the rows that came.
#[derive(Drop)]
struct Text {
    text: Vec<u8>,
}

impl RowSink for Text {
    ghost use Rattle.std.specs.Prelude.{◌≡◌};
    ghost use Rattle.fkv_functions.specs.declared.refusals.Refused.TheVariants.{NoMemory};

    ghost stands = { λ t rows. Unit {0} };

    ghost fault = { λ e. e ≡ NoMemory };

    ghost kept = { λ t. tt };

    fn add(&mut self, key: &Name, amount: i64) -> Result<(), Refused> {
        let digit = [b' ', b'0' + (amount % 10).unsigned_abs() as u8];
        match (
            self.text.extend_from_slice(key.bytes()),
            self.text.extend_from_slice(&digit),
        ) {
            (Ok(()), Ok(())) => Ok(()),
            _ => Err(Refused::NoMemory),
        }
    }
}

/// What comes of a feed in blocks of so many bytes at least: how many blocks there were, or why it is refused, and the rows.
#[derive(Drop)]
pub(crate) struct Came {
    pub told: Result<usize, Refused>,
    pub rows: Vec<u8>,
}

/// Reads a text in blocks, by a stream that gives so many bytes a call and fails after so many calls.
pub(crate) fn in_blocks(
    rt: &impl Wait,
    alloc: Global,
    text: &[u8],
    piece: usize,
    calls: u64,
    size: usize,
) -> Came {
    let source = CountedReader::new(Breaking::new(text, piece, calls));
    let feed = Mutex::new(Blocks::<_, Brand>::begin(alloc, source, 2, size));
    let mut sink = Text {
        text: Vec::new(alloc),
    };
    let mut block = Vec::new(alloc);
    let mut told = Ok(0);
    for count in 0..1_000 {
        match take_block(rt, &feed, &mut block) {
            Ok(Some(_place)) => {}
            Ok(None) => {
                told = Ok(count);
                break;
            }
            Err(stop) => {
                told = Err(stop.refused);
                break;
            }
        }
        let mut source = BlockSource::new(block.as_slice());
        match read_feed(alloc, &mut source, 3, 1_000, &mut sink) {
            Ok(_rows) => {}
            Err(refused) => {
                told = Err(refused);
                break;
            }
        }
    }
    Came {
        told,
        rows: sink.text,
    }
}

/// Texts, and their rows: each key with the last digit of its amount. No key is cut, whatever stands in it.
const TEXTS: [(&str, &str); 14] = [
    ("", ""),
    ("a,1", "a 1"),
    ("a,1\nb,2\nc,3\n", "a 1b 2c 3"),
    ("a,1\r\nb,2\r\nc,3\r\n", "a 1b 2c 3"),
    ("a,1\rb,2\rc,3", "a 1b 2c 3"),
    ("\n\r\na,1\n\n\r\r\nb,2\n\n", "a 1b 2"),
    ("\"a\nb\",1\n\"c\r\nd\",2\n", "a\nb 1c\r\nd 2"),
    ("\"a\"\"\n\"\"b\",1\nc,2\n", "a\"\n\"b 1c 2"),
    ("a\"b,1\nc\"\",2\n", "a\"b 1c\"\" 2"),
    ("\"a\"b,1\n\",\",\"2\"\n", "ab 1, 2"),
    ("\u{feff}a,1\nb,2\n", "a 1b 2"),
    ("\u{feff}\"a\nb\",1\nc,2\n", "a\nb 1c 2"),
    (
        "a,1\n\u{feff}b,2\n\u{feff}c,3\n",
        "a 1\u{feff}b 2\u{feff}c 3",
    ),
    (
        "a,1\n\"b\n\n\n\n\n\n\n\n\",2\nc,3",
        "a 1b\n\n\n\n\n\n\n\n 2c 3",
    ),
];

#[test]
fn blocks_of_every_size(rt: HostRuntime) {
    for (text, rows) in TEXTS {
        let mut sink = Text {
            text: Vec::new(rt.alloc()),
        };
        let mut source = CountedReader::new(text.as_bytes());
        let told = read_feed(rt.alloc(), &mut source, 3, 1_000, &mut sink);
        assert!(rt;
            told.is_ok() && sink.text.as_slice() == rows.as_bytes(),
            "{text}"
        );
        for size in 0..24 {
            for piece in [1, 2, 3, 8_192] {
                let came = in_blocks(&rt, rt.alloc(), text.as_bytes(), piece, 1_000_000, size);
                assert!(rt; came.told.is_ok(), "{text}: {size} {piece}");
                assert!(rt;
                    came.rows.as_slice() == rows.as_bytes(),
                    "{text}: {size} {piece}"
                );
            }
        }
    }
}

const FAILED: Result<usize, Refused> = Err(Refused::Unreadable { number: 3 });

/// A text, the bytes that a call gives, the calls before the one that fails, how many bytes a block has at least; and what comes of it.
type Row = (
    &'static str,
    usize,
    u64,
    usize,
    Result<usize, Refused>,
    &'static str,
);

const ROWS: [Row; 12] = [
    // blocks are as small as the records let them be, and as large as is asked for
    ("a,1\nb,2\nc,3\n", 4, 100, 1, Ok(3), "a 1b 2c 3"),
    ("a,1\nb,2\nc,3\n", 4, 100, 5, Ok(2), "a 1b 2c 3"),
    ("a,1\nb,2\nc,3\n", 4, 100, 100, Ok(1), "a 1b 2c 3"),
    ("\"a\n\n\n\",1\nb,2\n", 4, 100, 1, Ok(1), "a\n\n\n 1b 2"),
    // the whole records that were read are handed out before a failure is told
    ("a,1\nb,2\nc,3\n", 4, 0, 1, FAILED, ""),
    ("a,1\nb,2\nc,3\n", 4, 1, 1, FAILED, "a 1"),
    ("a,1\nb,2\nc,3\n", 4, 2, 100, FAILED, "a 1b 2"),
    ("a,1\nb,2\nc,3\n", 6, 1, 100, FAILED, "a 1"),
    ("a,1\nb,2\nc,3\n", 6, 2, 100, FAILED, "a 1b 2c 3"),
    // so a bad row before it is told first, by its number in its block
    (
        "a,1\nb\nc,3\n",
        4,
        2,
        100,
        Err(Refused::BadRow { feed: 3, row: 2 }),
        "a 1",
    ),
    (
        "a,1\nb\nc,3\n",
        4,
        100,
        1,
        Err(Refused::BadRow { feed: 3, row: 1 }),
        "a 1",
    ),
    (
        "a,1\n\"b",
        4,
        100,
        1,
        Err(Refused::BadRow { feed: 3, row: 1 }),
        "a 1",
    ),
];

#[test]
fn what_comes_of_blocks(rt: HostRuntime) {
    for (text, piece, calls, size, told, rows) in ROWS {
        let came = in_blocks(&rt, rt.alloc(), text.as_bytes(), piece, calls, size);
        assert!(rt; came.told == told, "{text}: {piece} {calls} {size}");
        assert!(rt;
            came.rows.as_slice() == rows.as_bytes(),
            "{text}: {piece} {calls} {size}"
        );
    }
}
