//! Random calls of sessions, operations, relocations among them, and pages, beside the plain map: each operation is answered as the plain
//! map answers it at its effect, and the live map is the plain one while the log's start is cut.
use crate::calls::{Call, LetterOp, Told, on_name};
use crate::driven::Driven;
use crate::openings::SMALL;
use fkv_functions::{Name, Refused, SumFns};
use fkv_operations::{Answer, KeyedOp, KeyedOpOf, Op, OpOf, apply_plainly};
use fkv_partition::Config;
use rand_core::{Rng, SeedableRng};
use rand_xoshiro::Xoshiro256PlusPlus;
use std::alloc::Global;
use std::collections::BTreeMap;

/// The value that a key had from a moment on, if any.
#[derive(Clone, Copy)]
struct Change {
    moment: u64,
    key: Name,
    value: Option<i128>,
}

/// How often what was seen.
#[derive(Clone, Copy, Debug)]
struct Counts {
    reads: u64,
    /// Reads that were answered later than they took effect.
    late_reads: u64,
    writes: u64,
    merges: u64,
    cleared: u64,
    truncations: u64,
}

const NONE: Counts = Counts {
    reads: 0,
    late_reads: 0,
    writes: 0,
    merges: 0,
    cleared: 0,
    truncations: 0,
};

/// A partition beside the plain map, and what that was.
#[derive(Drop)]
struct Beside {
    driven: Driven,
    plain: BTreeMap<Name, i128>,
    changes: Vec<Change>,
    counts: Counts,
}

const KEYS: [u8; 8] = *b"abcdefgh";

/// The sessions that random calls name.
const SLOTS: u64 = 3;

/// An operation that a random word names.
fn random_op(word: u64) -> LetterOp {
    let key = KEYS[(word & 7) as usize];
    let input = (word >> 8 & 0xff) as i64 - 100;
    match word >> 20 & 7 {
        0 | 1 => Op::Read(key, input),
        2 => Op::Upsert(key, i128::from(input)),
        3 => Op::Delete(key),
        6 | 7 => Op::Merge(key, input),
        _ => Op::Rmw(key, input),
    }
}

/// The page of an address, by some random words the one before it.
fn random_page(word: u64, address: u64) -> u64 {
    let page = address >> 8;
    if word >> 30 & 3 == 0 {
        page.saturating_sub(word >> 24 & 1)
    } else {
        page
    }
}

/// The fault that comes in place of a page by some random words.
fn random_fault(word: u64) -> Option<Refused> {
    match word >> 24 & 31 {
        0 => Some(Refused::Device { code: 3, page: 0 }),
        1 => Some(Refused::NoMemory),
        _ => None,
    }
}

impl Beside {
    /// A call of sessions or offsets, or one that begins something, that a random word names.
    fn free_call(&self, slot: usize, word: u64) -> Call {
        let compacted = &self.driven.compacted;
        match word >> 56 & 31 {
            0 | 1 | 2 if word >> 16 & 15 == 0 => Call::Leave(slot),
            0 | 1 | 2 => Call::Refresh(slot),
            3 | 4 | 5 => match word >> 16 & 3 {
                0 => Call::ReadOnly(random_page(word, compacted.tail())),
                1 => Call::Head(random_page(word, compacted.unflushed() << 8)),
                _ => Call::Flush,
            },
            6 => match word >> 16 & 3 {
                0 => Call::Truncate(random_page(word, compacted.cleared())),
                1 => Call::Truncate((compacted.cleared() >> 8).saturating_add(1)),
                _ => Call::TruncateCleared,
            },
            7 | 8 => Call::Issue(slot, Op::Relocate),
            _ => Call::Issue(slot, random_op(word)),
        }
    }

    /// A call of what is open in a context, if anything is.
    fn open_call(&self, slot: usize, context: usize, word: u64) -> Option<Call> {
        let given_up = word >> 16 & 63 == 0;
        if self.driven.compacted.asked(slot, context).is_err() {
            return None;
        }
        let relocates = self.driven.compacted.relocation(slot, context).is_some();
        Some(if given_up {
            Call::GiveUp(slot, context)
        } else if self.driven.compacted.awaits_page(slot, context) {
            match random_fault(word) {
                Some(refused) => Call::Fault(slot, context, refused),
                None if word >> 24 & 1 == 0 => Call::LoadBy(slot, context),
                None => Call::Load(slot, context),
            }
        } else if word >> 23 & 1 == 0 && !relocates {
            Call::Install(slot, context)
        } else {
            Call::Go(slot, context)
        })
    }

    /// Whether the live map is the plain one.
    fn is_plain(&mut self, alloc: Global) -> bool {
        match self.driven.live(alloc) {
            Ok(pairs) => {
                self.plain.len() == pairs.len()
                    && pairs.iter().all(|(key, value)| self.plain.get(key).copied() == Some(*value))
            }
            Err(_) => false,
        }
    }

    /// The value of a key at a moment, if any.
    fn value_at(&self, key: Name, moment: u64) -> Option<i128> {
        for change in self.changes.iter().rev() {
            if change.key == key && change.moment <= moment {
                return change.value;
            }
        }
        None
    }

    /// Whether the plain map answers an operation on a key so that was issued at one moment and took effect at another. A write is done
    /// to the map; it takes effect now.
    fn is_answered(&mut self, asked: (u64, KeyedOpOf<SumFns>), answer: Answer<i128>) -> bool {
        let (issued, op) = asked;
        let (now, effect) = (self.driven.now, self.driven.effect);
        let key = op.key();
        if effect <= issued || now < effect {
            return false;
        }
        if let KeyedOp::Read(_, _) = op {
            self.counts.reads = self.counts.reads.saturating_add(1);
            let late = if effect < now { 1 } else { 0 };
            self.counts.late_reads = self.counts.late_reads.saturating_add(late);
            return match self.value_at(key, effect) {
                Some(value) => answer == Answer::Value(value),
                None => answer == Answer::Absent,
            };
        }
        self.counts.writes = self.counts.writes.saturating_add(1);
        let merge = if op.is_merge() { 1 } else { 0 };
        self.counts.merges = self.counts.merges.saturating_add(merge);
        let told = apply_plainly(&SumFns, &mut self.plain, op);
        let value = self.plain.get(&key).copied();
        let change = Change {
            moment: now,
            key,
            value,
        };
        effect == now && told == Ok(answer) && self.changes.push(change).is_ok()
    }

    /// Whether the plain map answers an operation so, if it is one on a key.
    fn is_key_answered(&mut self, asked: (u64, OpOf<SumFns>), answer: Answer<i128>) -> bool {
        let (issued, op) = asked;
        match op.keyed() {
            Some(op) => self.is_answered((issued, op), answer),
            None => false,
        }
    }

    /// Makes a call of what is open in a context, and says whether it tells what the plain map has. What is cleared rises past
    /// the place of a relocation that is done.
    fn is_open_right(&mut self, alloc: Global, slot: usize, context: usize, call: Call) -> bool {
        let asked = self.driven.compacted.asked(slot, context);
        let relocation = self.driven.compacted.relocation(slot, context);
        let before = self.driven.compacted.cleared();
        let told = self.driven.call(alloc, call);
        let after = self.driven.compacted.cleared();
        match told {
            Told::Done(Answer::Cleared) => match relocation {
                Some(relocation) => {
                    self.counts.cleared = self.counts.cleared.saturating_add(1);
                    before <= after && relocation.target < after
                }
                None => false,
            },
            Told::Done(answer) => match asked {
                Ok(asked) => self.is_key_answered(asked, answer),
                Err(_) => false,
            },
            // what is given up is never refused
            Told::Refused(_) => !matches!(call, Call::GiveUp(_, _)),
            _ => before <= after,
        }
    }

    /// Makes a call that begins something or moves offsets, and says whether a truncation leaves the live map, drops nothing
    /// that is not cleared, and is refused for no reason but that it is not due.
    fn is_free_right(&mut self, alloc: Global, call: Call) -> bool {
        let told = self.driven.call(alloc, call);
        match call {
            Call::Truncate(_) | Call::TruncateCleared => match told {
                Told::Refused(refused) => refused == Refused::NotDue,
                _ => {
                    self.counts.truncations = self.counts.truncations.saturating_add(1);
                    let compacted = &self.driven.compacted;
                    compacted.begin() <= compacted.cleared() && self.is_plain(alloc)
                }
            },
            Call::Refresh(_) => {
                if told != Told::Ok {
                    let _ = self.driven.call(alloc, Call::Enter);
                }
                true
            }
            _ => true,
        }
    }

    /// Makes the call that a random word names, and says whether it is as the plain map has it.
    fn step(&mut self, alloc: Global, word: u64) -> bool {
        let slot = ((word >> 32 & 0xffff) % SLOTS) as usize;
        if word >> 56 & 31 < 12 {
            let call = self.free_call(slot, word);
            return self.is_free_right(alloc, call);
        }
        for ahead in 0..8u64 {
            let context = ((word >> 52).wrapping_add(ahead) & 7) as usize;
            if let Some(call) = self.open_call(slot, context, word) {
                return self.is_open_right(alloc, slot, context, call);
            }
        }
        true
    }

    /// Lets one session enter and write four keys, so that classes have entries before sessions claim them.
    fn is_opened(&mut self, alloc: Global) -> bool {
        if self.driven.call(alloc, Call::Enter) != Told::At(0) {
            return false;
        }
        for key in KEYS.iter().take(4) {
            let op = Op::Upsert(*key, 1);
            let issued = self.driven.now;
            let told = self.driven.call(alloc, Call::Do(0, op));
            let Some(op) = on_name(op) else {
                return false;
            };
            match (op.keyed(), told) {
                (Some(op), Told::Done(answer)) if self.is_answered((issued, op), answer) => (),
                _ => return false,
            }
        }
        self.is_plain(alloc)
    }
}

/// What so many random calls come to, where each is as the plain map has it, and so is the live map after every eighth.
fn run(alloc: Global, config: &Config, seed: u64, calls: u64) -> Option<Counts> {
    let Ok(driven) = Driven::new(alloc, config) else {
        return None;
    };
    let mut beside = Beside {
        driven,
        plain: BTreeMap::new(alloc),
        changes: Vec::new(alloc),
        counts: NONE,
    };
    if !beside.is_opened(alloc) {
        return None;
    }
    let mut rng = Xoshiro256PlusPlus::seed_from_u64(seed);
    for at in 0..calls {
        if !beside.step(alloc, rng.next_u64()) || (at & 7 == 0 && !beside.is_plain(alloc)) {
            return None;
        }
    }
    if beside.is_plain(alloc) {
        Some(beside.counts)
    } else {
        None
    }
}

/// Whether a run came to its end, and had enough of each kind.
fn is_lively(counts: Option<Counts>) -> bool {
    match counts {
        Some(c) => {
            c.reads > 10
                && c.late_reads > 0
                && c.writes > 30
                && c.merges > 10
                && c.cleared > 30
                && c.truncations > 2
        }
        None => false,
    }
}

/// Seeds, bits of buckets, frames, and calls.
const ROWS: [(u64, u64, u64, u64); 6] = [
    (41, 0, 2, 2_000),
    (42, 8, 2, 2_000),
    (43, 0, 3, 2_000),
    (44, 8, 3, 2_000),
    (45, 1, 3, 2_000),
    (46, 4, 8, 2_000),
];

#[test]
fn random_calls_beside_the_plain_map(rt: HostRuntime) {
    for (seed, bucket_bits, frames, calls) in ROWS {
        let config = Config {
            bucket_bits,
            frames,
            ..SMALL
        };
        let counts = run(rt.alloc(), &config, seed, calls);
        assert!(rt; is_lively(counts), "seed {seed}: {counts:?}");
    }
}
