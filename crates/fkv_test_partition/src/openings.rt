//! Configurations, what is done before the rows of a run, and the maps that this leaves. Records take 56 bytes and pages 256,
//! so page 0 has three of them and each other page four.
use crate::calls::{Call, Row, Told};
use fkv_operations::{Answer, Op};
use fkv_partition::Config;

/// 256 buckets, so that each key of one letter has a class of its own, and two frames.
pub const SMALL: Config = Config {
    id: 1,
    partition_bits: 0,
    bucket_bits: 8,
    page_bits: 8,
    frames: 2,
    turns: 1_000_000,
};

/// One bucket, so that all keys of one lower-case letter are of one class, and four frames.
pub const STEEP: Config = Config {
    id: 1,
    partition_bits: 0,
    bucket_bits: 0,
    page_bits: 8,
    frames: 4,
    turns: 1_000_000,
};

/// Two sessions, and a to c on page 0, which is full.
pub const IN_MEMORY: [Row; 6] = [
    (Call::Enter, Told::At(0)),
    (Call::Enter, Told::At(1)),
    (
        Call::Do(0, Op::Upsert(b'a', 10)),
        Told::Done(Answer::Stored),
    ),
    (Call::Do(0, Op::Upsert(b'b', 1)), Told::Done(Answer::Stored)),
    (Call::Do(0, Op::Upsert(b'c', 1)), Told::Done(Answer::Stored)),
    (Call::Tail, Told::At(256)),
];

/// Two sessions; a to c stand at 64, 120 and 176 on page 0, which has left its frame.
pub const EVICTED: [Row; 8] = [
    (Call::Enter, Told::At(0)),
    (Call::Enter, Told::At(1)),
    (
        Call::Do(0, Op::Upsert(b'a', 10)),
        Told::Done(Answer::Stored),
    ),
    (Call::Do(0, Op::Upsert(b'b', 1)), Told::Done(Answer::Stored)),
    (Call::Do(0, Op::Upsert(b'c', 1)), Told::Done(Answer::Stored)),
    (Call::Tail, Told::At(256)),
    (Call::Freeze(1), Told::Ok),
    (Call::Evict(1), Told::Ok),
];

/// The map after both.
pub const EVICTED_MAP: [(u8, i128); 3] = [(b'a', 10), (b'b', 1), (b'c', 1)];

/// Two sessions; a to c on page 0 and d to g on page 1; each is read-only, and no frame is free.
pub const FULL: [Row; 11] = [
    (Call::Enter, Told::At(0)),
    (Call::Enter, Told::At(1)),
    (Call::Do(0, Op::Upsert(b'a', 1)), Told::Done(Answer::Stored)),
    (Call::Do(0, Op::Upsert(b'b', 2)), Told::Done(Answer::Stored)),
    (Call::Do(0, Op::Upsert(b'c', 3)), Told::Done(Answer::Stored)),
    (Call::Do(0, Op::Upsert(b'd', 4)), Told::Done(Answer::Stored)),
    (Call::Do(0, Op::Upsert(b'e', 5)), Told::Done(Answer::Stored)),
    (Call::Do(0, Op::Upsert(b'f', 6)), Told::Done(Answer::Stored)),
    (Call::Do(0, Op::Upsert(b'g', 7)), Told::Done(Answer::Stored)),
    (Call::Tail, Told::At(512)),
    (Call::Freeze(2), Told::Ok),
];

pub const FULL_MAP: [(u8, i128); 7] = [
    (b'a', 1),
    (b'b', 2),
    (b'c', 3),
    (b'd', 4),
    (b'e', 5),
    (b'f', 6),
    (b'g', 7),
];

/// Two sessions; a to c on page 0, d to g on page 1, h to k on page 2, and l at 768; each page below is read-only.
pub const TWELVE: [Row; 16] = [
    (Call::Enter, Told::At(0)),
    (Call::Enter, Told::At(1)),
    (Call::Do(0, Op::Upsert(b'a', 1)), Told::Done(Answer::Stored)),
    (Call::Do(0, Op::Upsert(b'b', 1)), Told::Done(Answer::Stored)),
    (Call::Do(0, Op::Upsert(b'c', 1)), Told::Done(Answer::Stored)),
    (Call::Do(0, Op::Upsert(b'd', 1)), Told::Done(Answer::Stored)),
    (Call::Do(0, Op::Upsert(b'e', 1)), Told::Done(Answer::Stored)),
    (Call::Do(0, Op::Upsert(b'f', 1)), Told::Done(Answer::Stored)),
    (Call::Do(0, Op::Upsert(b'g', 1)), Told::Done(Answer::Stored)),
    (Call::Do(0, Op::Upsert(b'h', 1)), Told::Done(Answer::Stored)),
    (Call::Do(0, Op::Upsert(b'i', 1)), Told::Done(Answer::Stored)),
    (Call::Do(0, Op::Upsert(b'j', 1)), Told::Done(Answer::Stored)),
    (Call::Do(0, Op::Upsert(b'k', 1)), Told::Done(Answer::Stored)),
    (Call::Do(0, Op::Upsert(b'l', 1)), Told::Done(Answer::Stored)),
    (Call::Tail, Told::At(824)),
    (Call::Freeze(3), Told::Ok),
];

pub const TWELVE_MAP: [(u8, i128); 12] = [
    (b'a', 1),
    (b'b', 1),
    (b'c', 1),
    (b'd', 1),
    (b'e', 1),
    (b'f', 1),
    (b'g', 1),
    (b'h', 1),
    (b'i', 1),
    (b'j', 1),
    (b'k', 1),
    (b'l', 1),
];

/// Two sessions; a to c on page 0, a written again and d to f on page 1, and g to j on page 2; each page is read-only.
pub const AGAIN: [Row; 15] = [
    (Call::Enter, Told::At(0)),
    (Call::Enter, Told::At(1)),
    (Call::Do(0, Op::Upsert(b'a', 1)), Told::Done(Answer::Stored)),
    (Call::Do(0, Op::Upsert(b'b', 1)), Told::Done(Answer::Stored)),
    (Call::Do(0, Op::Upsert(b'c', 1)), Told::Done(Answer::Stored)),
    (Call::Freeze(1), Told::Ok),
    (Call::Do(0, Op::Upsert(b'a', 2)), Told::Done(Answer::Stored)),
    (Call::Do(0, Op::Upsert(b'd', 1)), Told::Done(Answer::Stored)),
    (Call::Do(0, Op::Upsert(b'e', 1)), Told::Done(Answer::Stored)),
    (Call::Do(0, Op::Upsert(b'f', 1)), Told::Done(Answer::Stored)),
    (Call::Do(0, Op::Upsert(b'g', 1)), Told::Done(Answer::Stored)),
    (Call::Do(0, Op::Upsert(b'h', 1)), Told::Done(Answer::Stored)),
    (Call::Do(0, Op::Upsert(b'i', 1)), Told::Done(Answer::Stored)),
    (Call::Do(0, Op::Upsert(b'j', 1)), Told::Done(Answer::Stored)),
    (Call::Freeze(3), Told::Ok),
];

pub const AGAIN_MAP: [(u8, i128); 10] = [
    (b'a', 2),
    (b'b', 1),
    (b'c', 1),
    (b'd', 1),
    (b'e', 1),
    (b'f', 1),
    (b'g', 1),
    (b'h', 1),
    (b'i', 1),
    (b'j', 1),
];
