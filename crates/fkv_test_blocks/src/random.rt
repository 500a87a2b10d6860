//! Random texts in small blocks, beside the rows that they are made of.
use crate::cuts::in_blocks;
use fkv_functions::Refused;
use rand_core::{Rng, SeedableRng};
use rand_xoshiro::Xoshiro256PlusPlus;
use std::alloc::Global;

/// Keys as they stand in a text, and what they are. The last one begins with a byte order mark, which stays behind the text's start.
const KEYS: [(&str, &str); 8] = [
    ("a", "a"),
    ("b\"c", "b\"c"),
    ("\"a\nb\"", "a\nb"),
    ("\"\r\n\n\"", "\r\n\n"),
    ("\"a,\"\"\nb\"", "a,\"\nb"),
    ("\"\"\"\"", "\""),
    ("\"a\"b", "ab"),
    ("\u{feff}c", "\u{feff}c"),
];

/// What ends a record, with empty lines behind it.
const ENDS: [&str; 6] = ["\n", "\r\n", "\r", "\n\n", "\r\n\r\n", "\r\r"];

/// A text of some records, of which the last may be no row; its rows, each key with its amount's digit; and whether all are rows.
#[derive(Drop)]
struct Drawn {
    text: Vec<u8>,
    rows: Vec<u8>,
    is_good: bool,
}

/// Adds these, one behind another.
fn add(text: &mut Vec<u8>, pieces: &[&str]) -> Result<(), Refused> {
    for piece in pieces {
        let Ok(()) = text.extend_from_slice(piece.as_bytes()) else {
            return Err(Refused::NoMemory);
        };
    }
    Ok(())
}

/// A random text of this seed.
fn made_of(alloc: Global, seed: u64) -> Result<Drawn, Refused> {
    let mut words = Xoshiro256PlusPlus::seed_from_u64(seed);
    let (mut text, mut rows) = (Vec::new(alloc), Vec::new(alloc));
    let count = words.next_u64() % 12;
    for row in 0..count {
        let word = words.next_u64();
        let kinds = if row == 0 { 7 } else { 8 };
        let (written, key) = *KEYS.get((word % kinds) as usize).unwrap_or(&("a", "a"));
        let end = *ENDS.get((word >> 8) as usize % 6).unwrap_or(&"\n");
        if word >> 32 & 31 == 0 {
            add(&mut text, &[written, end])?;
            return Ok(Drawn {
                text,
                rows,
                is_good: false,
            });
        }
        let digit = if word >> 16 & 1 == 0 { "3" } else { "7" };
        add(&mut text, &[written, ",", digit, end])?;
        add(&mut rows, &[key, " ", digit])?;
    }
    Ok(Drawn {
        text,
        rows,
        is_good: true,
    })
}

/// How many texts are tried.
const TEXTS: u64 = 2_000;

/// Each text in blocks of 1 to 13 bytes at least, by a stream that gives 1 to 17 bytes a call.
#[test]
fn random_texts_in_small_blocks(rt: HostRuntime) {
    for seed in 0..TEXTS {
        let Ok(
            Drawn {
                text,
                rows,
                is_good,
            },
        ) = made_of(rt.alloc(), seed)
        else {
            panic!(rt; "no memory for text {seed}");
        };
        let (size, piece) = ((1 + seed % 13) as usize, (1 + seed % 17) as usize);
        let came = in_blocks(&rt, rt.alloc(), text.as_slice(), piece, 1_000_000, size);
        assert!(rt; came.told.is_ok() == is_good, "text {seed}");
        assert!(rt; came.rows == rows, "text {seed}");
    }
}
