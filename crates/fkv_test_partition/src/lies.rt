//! A reader that gives one byte otherwise, once, to a relocation or to an update whose way goes over three pages, or to a read:
//! each place of each page in turn. It is done, or tells damage, and no other key changes.
use crate::calls::{Call, Row, Told, is_map, letter};
use crate::driven::Driven;
use crate::openings::{AGAIN, AGAIN_MAP, EVICTED, EVICTED_MAP, SMALL, STEEP, TWELVE, TWELVE_MAP};
use fkv_functions::{Name, Refused};
use fkv_operations::{Answer, Op};
use fkv_test_devices::Turn;
use std::alloc::Global;

/// What became of the key of the record that was relocated or updated.
#[derive(Clone, Copy, PartialEq, Eq)]
enum Fate {
    /// It has the value that it is to have.
    Kept,
    Lost,
    Changed,
    /// Damage was told, and it has what it had.
    Damaged,
    /// Another key is not what it was, or something else was told.
    Spread,
}

/// What became of `a`, the first key of a map, where each other key is to have what it had.
fn fate_of(pairs: &[(Name, i128)], map: &[(u8, i128)]) -> Fate {
    let (Some(first), Some(others)) = (map.get(0), map.get(1..)) else {
        return Fate::Spread;
    };
    if is_map(pairs, map) {
        return Fate::Kept;
    }
    if is_map(pairs, others) {
        return Fate::Lost;
    }
    match (pairs.get(0), pairs.get(1..)) {
        (Some(pair), Some(rest)) if letter(&pair.0) == first.0 && is_map(rest, others) => {
            Fate::Changed
        }
        _ => Fate::Spread,
    }
}

impl Driven {
    /// What became of `a` by the live map.
    fn fate(&mut self, alloc: Global, map: &[(u8, i128)]) -> Fate {
        match self.live(alloc) {
            Ok(pairs) => fate_of(pairs.as_slice(), map),
            Err(_) => Fate::Spread,
        }
    }
}

/// A partition after these rows, whose pages 0 to 2 have left their frames, and whose reader raises the byte at a place after so
/// many pages.
fn lied_to(alloc: Global, opening: &[Row], left: u64, place: usize) -> Option<Driven> {
    let Ok(mut driven) = Driven::new(alloc, &STEEP) else {
        return None;
    };
    let lie = [
        (Call::Evict(3), Told::Ok),
        (Call::Stray(left, Turn::Raises(place)), Told::Ok),
    ];
    if driven.first_other(alloc, opening) == None && driven.first_other(alloc, &lie) == None {
        Some(driven)
    } else {
        None
    }
}

/// The fate of `a` by a relocation of its record at 64 and those of the others of page 0, which is dropped then.
fn relocated(mut driven: Driven, alloc: Global, map: &[(u8, i128)]) -> Fate {
    let told = driven.call(alloc, Call::Move(0, 1));
    let cleared = driven.compacted.cleared();
    let before = driven.fate(alloc, map);
    let rest = if cleared == 64 { 3 } else { 2 };
    let ending = [
        (Call::Move(1, rest), Told::Done(Answer::Cleared)),
        (Call::Cleared, Told::At(256)),
        (Call::TruncateCleared, Told::At(256)),
    ];
    if driven.first_other(alloc, &ending) != None {
        return Fate::Spread;
    }
    let after = driven.fate(alloc, map);
    match told {
        Told::Done(Answer::Cleared) if cleared == 120 && before != Fate::Spread => after,
        Told::Refused(Refused::Damaged { .. })
            if cleared == 64 && before == Fate::Kept && after == Fate::Kept => { Fate::Damaged }
        _ => Fate::Spread,
    }
}

/// The fate of `a` by an update of it, which is to be told the value that it has then.
fn updated(mut driven: Driven, alloc: Global) -> Fate {
    let mut map = TWELVE_MAP;
    let fate = match driven.call(alloc, Call::Do(0, Op::Rmw(b'a', 5))) {
        Told::Done(Answer::Value(value)) => {
            map[0] = (b'a', value);
            if value == 6 {
                Fate::Kept
            } else {
                Fate::Changed
            }
        }
        Told::Refused(Refused::Damaged { .. }) => Fate::Damaged,
        _ => Fate::Spread,
    };
    if driven.fate(alloc, &map) == Fate::Kept {
        fate
    } else {
        Fate::Spread
    }
}

/// The rows before, the map, whether the record of `a` is relocated or `a` is updated, the pages that are read before one
/// lies, and how often of its 256 places `a` is kept, lost, changed, and damage told.
type Lie = (&'static [Row], &'static [(u8, i128)], bool, u64, [u64; 4]);

/// Of each record on the way 37 bytes tell damage: the previous address, the bits that are always 0, and the bytes of a name that
/// are to be zero. A lie about the page of its place changes its value, of sixteen bytes, or makes it a tombstone or the record
/// of another key. Where that page comes again, on the way, the record is not read again.
const RELOCATIONS: [Lie; 4] = [
    (&TWELVE, &TWELVE_MAP, true, 0, [200, 3, 16, 37]),
    (&TWELVE, &TWELVE_MAP, true, 1, [108, 0, 0, 148]),
    (&TWELVE, &TWELVE_MAP, true, 2, [108, 0, 0, 148]),
    (&TWELVE, &TWELVE_MAP, true, 3, [182, 0, 0, 74]),
];

/// A lie that hides a newer record brings the older one back.
const OF_OLDER_RECORDS: [Lie; 3] = [
    (&AGAIN, &AGAIN_MAP, true, 0, [219, 0, 0, 37]),
    (&AGAIN, &AGAIN_MAP, true, 1, [108, 0, 0, 148]),
    (&AGAIN, &AGAIN_MAP, true, 2, [107, 0, 2, 147]),
];

const UPDATES: [Lie; 3] = [
    (&TWELVE, &TWELVE_MAP, false, 0, [108, 0, 0, 148]),
    (&TWELVE, &TWELVE_MAP, false, 1, [108, 0, 0, 148]),
    (&TWELVE, &TWELVE_MAP, false, 2, [126, 0, 19, 111]),
];

/// How often each fate came, but those that spread.
fn fates(alloc: Global, lie: &Lie) -> [u64; 4] {
    let (opening, map, relocates, left, _) = *lie;
    let (mut kept, mut lost, mut changed, mut damaged) = (0u64, 0u64, 0u64, 0u64);
    for place in 0..256usize {
        let fate = match lied_to(alloc, opening, left, place) {
            Some(driven) if relocates => relocated(driven, alloc, map),
            Some(driven) => updated(driven, alloc),
            None => Fate::Spread,
        };
        match fate {
            Fate::Kept => kept = kept.saturating_add(1),
            Fate::Lost => lost = lost.saturating_add(1),
            Fate::Changed => changed = changed.saturating_add(1),
            Fate::Damaged => damaged = damaged.saturating_add(1),
            Fate::Spread => (),
        }
    }
    [kept, lost, changed, damaged]
}

/// The number of the first of these where the fates are others.
fn first_other_fates(alloc: Global, lies: &[Lie]) -> Option<usize> {
    lies.iter().position(|lie| fates(alloc, lie) != lie.4)
}

/// What a read of `a`, whose record stands at 64 with 10 as its value, is to tell where the byte at this place comes plus 1.
fn read_otherwise(place: usize) -> Told {
    match place {
        // the bit of a tombstone; the length and the letter of the name, which is another key's then
        70 | 72 | 73 => Told::Done(Answer::Absent),
        // the previous address, the bits and the bytes that are always 0
        64..=103 => Told::Refused(Refused::Damaged { page: 0 }),
        104..=119 => {
            let place_value = (0..place - 104).fold(1i128, |value, _| value.wrapping_mul(256));
            Told::Done(Answer::Value(place_value.wrapping_add(10)))
        }
        _ => Told::Done(Answer::Value(10)),
    }
}

/// The first place of page 0 where a read tells something else, or where another read, which is not lied to, does.
fn first_other_read(alloc: Global) -> Option<usize> {
    (0..256usize).find(|place| {
        let rows = [
            (Call::Stray(0, Turn::Raises(*place)), Told::Ok),
            (Call::Do(0, Op::Read(b'a', 0)), read_otherwise(*place)),
            (Call::Live(&EVICTED_MAP), Told::Is(true)),
        ];
        match Driven::new(alloc, &SMALL) {
            Ok(mut driven) => {
                driven.first_other(alloc, &EVICTED) != None
                    || driven.first_other(alloc, &rows) != None
            }
            Err(_) => true,
        }
    })
}

/// The lowest byte of the value of `a`, as the live map reads it.
const BYTE_104: [Row; 2] = [
    (Call::Stray(0, Turn::Raises(104)), Told::Ok),
    (
        Call::Live(&[(b'a', 11), (b'b', 1), (b'c', 1)]),
        Told::Is(true),
    ),
];

#[test]
fn lies_to_reads(rt: HostRuntime) {
    let wrong = first_other_read(rt.alloc());
    assert!(rt; wrong == None, "place {wrong:?}");
    if let Ok(mut driven) = Driven::new(rt.alloc(), &SMALL) {
        assert!(rt; driven.first_other(rt.alloc(), &EVICTED) == None);
        assert!(rt; driven.first_other(rt.alloc(), &BYTE_104) == None);
    }
}

#[test]
fn lies_to_relocations(rt: HostRuntime) {
    let wrong = first_other_fates(rt.alloc(), &RELOCATIONS);
    assert!(rt; wrong == None, "{wrong:?}");
}

#[test]
fn lies_that_hide_newer_records(rt: HostRuntime) {
    let wrong = first_other_fates(rt.alloc(), &OF_OLDER_RECORDS);
    assert!(rt; wrong == None, "{wrong:?}");
}

#[test]
fn lies_to_updates(rt: HostRuntime) {
    let wrong = first_other_fates(rt.alloc(), &UPDATES);
    assert!(rt; wrong == None, "{wrong:?}");
}
