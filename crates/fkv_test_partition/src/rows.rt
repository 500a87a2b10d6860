//! The interpreter of rows: calls of several events, and which row is the first that tells something else.
use crate::calls::{Call, LetterOp, Row, Told};
use crate::driven::Driven;
use fkv_functions::Refused;
use fkv_operations::{Answer, Op};
use fkv_partition::Config;
use std::alloc::Global;

/// How many events at most finish what is open in a context.
const EVENTS: usize = 40;

/// A worked run: the rows of its opening, its own, and the live map at its end.
#[derive(Drop)]
pub struct Run {
    pub name: &'static str,
    pub config: Config,
    pub opening: &'static [Row],
    pub rows: &'static [Row],
    pub map: &'static [(u8, i128)],
}

impl Driven {
    fn ready(&mut self, alloc: Global, slot: usize, context: usize) -> Told {
        for _ in 0..EVENTS {
            match self.step(alloc, Call::Go(slot, context)) {
                Told::Next => (),
                told => return told,
            }
        }
        Told::Refused(Refused::Stalled)
    }

    /// Goes on with an operation until it is done, waits or is refused.
    fn finish(&mut self, alloc: Global, slot: usize, context: usize) -> Told {
        let mut next = Call::Go(slot, context);
        for _ in 0..EVENTS {
            next = match self.step(alloc, next) {
                Told::Next => Call::Go(slot, context),
                Told::Builds(_) => Call::Install(slot, context),
                Told::Loads(_) => Call::Load(slot, context),
                told => return told,
            };
        }
        Told::Refused(Refused::Stalled)
    }

    fn act(&mut self, alloc: Global, slot: usize, op: LetterOp) -> Told {
        match self.step(alloc, Call::Issue(slot, op)) {
            Told::At(context) => self.finish(alloc, slot, context as usize),
            told => told,
        }
    }

    fn relocate_many(&mut self, alloc: Global, slot: usize, count: u64) -> Told {
        for _ in 0..count {
            let told = self.act(alloc, slot, Op::Relocate);
            if told != Told::Done(Answer::Cleared) {
                return told;
            }
        }
        Told::Done(Answer::Cleared)
    }

    /// Makes each of these calls, which is to tell `Ok`.
    fn all_done(&mut self, alloc: Global, calls: &[Call]) -> Told {
        for call in calls {
            match self.step(alloc, *call) {
                Told::Ok => (),
                told => return told,
            }
        }
        Told::Ok
    }

    fn evict(&mut self, alloc: Global, page: u64) -> Told {
        for _ in self.compacted.unflushed()..page {
            if let Told::Refused(refused) = self.step(alloc, Call::Flush) {
                return Told::Refused(refused);
            }
        }
        let shown = [Call::Head(page), Call::Refresh(0), Call::Refresh(1)];
        self.all_done(alloc, &shown)
    }

    fn freeze(&mut self, alloc: Global, page: u64) -> Told {
        let shown = [
            Call::ReadOnly(page),
            Call::Refresh(0),
            Call::Refresh(1),
            Call::Refresh(0),
            Call::Refresh(1),
        ];
        self.all_done(alloc, &shown)
    }

    pub fn call(&mut self, alloc: Global, call: Call) -> Told {
        match call {
            Call::Ready(slot, context) => self.ready(alloc, slot, context),
            Call::Finish(slot, context) => self.finish(alloc, slot, context),
            Call::Do(slot, op) => self.act(alloc, slot, op),
            Call::Move(slot, count) => self.relocate_many(alloc, slot, count),
            Call::Freeze(page) => self.freeze(alloc, page),
            Call::Evict(page) => self.evict(alloc, page),
            call => self.step(alloc, call),
        }
    }

    /// The number of the first row that tells something else.
    pub fn first_other(&mut self, alloc: Global, rows: &[Row]) -> Option<usize> {
        for (at, row) in rows.iter().enumerate() {
            if self.call(alloc, row.0) != row.1 {
                return Some(at);
            }
        }
        None
    }
}

/// The number of the first row that tells something else, the opening's first; that of all rows where the live map at the end
/// is another; and none where all is as wanted.
pub fn first_wrong(alloc: Global, run: &Run) -> Option<usize> {
    let Ok(mut driven) = Driven::new(alloc, &run.config) else {
        return Some(0);
    };
    if let Some(at) = driven.first_other(alloc, run.opening) {
        return Some(at);
    }
    let before = run.opening.len();
    if let Some(at) = driven.first_other(alloc, run.rows) {
        return Some(before.saturating_add(at));
    }
    if driven.step(alloc, Call::Live(run.map)) == Told::Is(true) {
        None
    } else {
        Some(before.saturating_add(run.rows.len()))
    }
}
