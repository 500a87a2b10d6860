//! Jobs that wait for one another and for turns of the keeper: each ends only if all run at the same time.
ghost use Rattle.std.specs.Prelude.{◌≡◌, ⊤};
ghost use Rattle.fkv_functions.specs.declared.refusals.Refused.{Refused};

use fkv_functions::Refused;
use fkv_jobs::{Job, Keeper, run_jobs, run_spread};
use std::alloc::{AllocError, Global};
use std::rt::Clock;
use std::sync::Wait;
use std::sync::atomic::{AtomicBool, AtomicU64, Ordering};
use std::test::Fail;
use std::thread;
use std::thread::Threads;

/// How often a job looks before it gives up.
const LOOKS: u64 = 10_000_000;

/// What the threads of a row share.
#[derive(Drop)]
struct Place {
    begun: AtomicU64,
    turns: AtomicU64,
    missed: AtomicBool,
}

/// A job that waits until so many have begun and the keeper has made so many turns, and gives its number.
#[derive(Drop)]
struct Meet<'a> {
    place: &'a Place,
    number: u64,
    others: u64,
    turns: u64,
}

impl<'a> Meet<'a> {
    fn is_met(&self) -> bool {
        self.place.begun.load(Ordering::SeqCst) >= self.others
            && self.place.turns.load(Ordering::SeqCst) >= self.turns
    }
}

impl<'a> Job for Meet<'a> {
    type Output = u64;

    ghost ready = { λ _. ⊤ };

    ghost gives = { λ job number. number ≡ job.number };

    fn run<W: Wait + Clock>(self, _rt: &W) -> u64 {
        self.place.begun.fetch_add(1, Ordering::SeqCst);
        for _ in 0..LOOKS {
            if self.is_met() {
                return self.number;
            }
            thread::yield_now();
        }
        self.place.missed.store(true, Ordering::SeqCst);
        self.number
    }
}

/// A keeper that counts its turns, of which this one is refused, the first being 0.
#[derive(Drop)]
struct Counts<'a> {
    place: &'a Place,
    last: u64,
}

impl<'a> Keeper for Counts<'a> {
    ghost fault = { λ _ refused. refused ≡ Refused.Stalled };

    fn turn<W: Wait>(&self, _rt: &W, _stop: &AtomicBool) -> Result<(), Refused> {
        if self.place.turns.fetch_add(1, Ordering::SeqCst) == self.last {
            return Err(Refused::Stalled);
        }
        Ok(())
    }
}

/// The turn of no keeper.
const NEVER: u64 = 18_446_744_073_709_551_615;

/// What is run, and how the keeper ends.
#[derive(Debug, Drop)]
struct Row {
    jobs: u64,
    /// What each job waits for: so many that have begun, and so many turns.
    others: u64,
    turns: u64,
    /// The turn that is refused.
    last: u64,
    kept: Result<(), Refused>,
}

/// Jobs that meet beside a keeper of which no turn is refused.
fn meeting(jobs: u64) -> Row {
    Row {
        jobs,
        others: jobs,
        turns: 3,
        last: NEVER,
        kept: Ok(()),
    }
}

/// Jobs that meet after a turn was refused: with the second, when a third may not come.
fn unkept(jobs: u64) -> Row {
    Row {
        jobs,
        others: jobs,
        turns: 2,
        last: 1,
        kept: Err(Refused::Stalled),
    }
}

/// How many jobs, with and without a turn that is refused.
const ROWS: [(u64, bool); 6] = [
    (0, false),
    (1, false),
    (2, false),
    (16, false),
    (1, true),
    (5, true),
];

/// The jobs of a row.
fn jobs_of<'a>(alloc: Global, place: &'a Place, row: &Row) -> Result<Vec<Meet<'a>>, AllocError> {
    let mut jobs = Vec::new(alloc);
    for number in 0..row.jobs {
        jobs.push(Meet {
            place,
            number,
            others: row.others,
            turns: row.turns,
        })?;
    }
    Ok(jobs)
}

/// Whether a row's jobs meet and give their numbers in order, and the keeper ends as it says.
fn comes_so<T: Threads + Wait + Clock + Sync>(
    rt: &T,
    alloc: Global,
    row: &Row,
) -> Result<bool, Refused> {
    let place = Place {
        begun: AtomicU64::new(0),
        turns: AtomicU64::new(0),
        missed: AtomicBool::new(false),
    };
    let place = &place;
    let Ok(jobs) = jobs_of(alloc, place, row) else {
        return Err(Refused::NoMemory);
    };
    let keeper = Counts {
        place,
        last: row.last,
    };
    let ran = run_jobs(rt, alloc, &keeper, jobs)?;
    let is_in_order = ran.results.iter().copied().eq(0..row.jobs);
    Ok(is_in_order && ran.kept == row.kept && !place.missed.load(Ordering::SeqCst))
}

#[test]
fn jobs_meet_beside_a_keeper(rt: HostRuntime) -> Result<(), Fail> {
    for (jobs, is_refused) in ROWS {
        let row = if is_refused {
            unkept(jobs)
        } else {
            meeting(jobs)
        };
        let came = comes_so(&rt, rt.alloc(), &row);
        assert!(rt; came == Ok(true), "{row:?}: {came:?}");
    }
    Ok(())
}

/// Whether so many jobs, spread over so many threads, give their numbers in order, where each waits until so many have begun.
fn spread_so<T: Threads + Wait + Clock + Sync>(
    rt: &T,
    alloc: Global,
    threads: usize,
    jobs: u64,
    others: u64,
) -> Result<bool, Refused> {
    let place = Place {
        begun: AtomicU64::new(0),
        turns: AtomicU64::new(0),
        missed: AtomicBool::new(false),
    };
    let row = Row {
        jobs,
        others,
        ..ALONE
    };
    let Ok(jobs) = jobs_of(alloc, &place, &row) else {
        return Err(Refused::NoMemory);
    };
    let results = run_spread(rt, alloc, threads.max(1), jobs)?;
    let is_in_order = results.iter().copied().eq(0..row.jobs);
    Ok(is_in_order && !place.missed.load(Ordering::SeqCst))
}

/// How many threads there are, how many jobs, and how many of these run at the same time.
const SPREAD: [(usize, u64, u64); 6] = [
    (1, 0, 0),
    (1, 3, 1),
    (3, 3, 3),
    (4, 2, 2),
    (2, 7, 2),
    (16, 64, 16),
];

#[test]
fn jobs_meet_in_a_few_threads(rt: HostRuntime) -> Result<(), Fail> {
    for (threads, jobs, others) in SPREAD {
        let came = spread_so(&rt, rt.alloc(), threads, jobs, others);
        assert!(rt; came == Ok(true), "{threads} {jobs}: {came:?}");
    }
    Ok(())
}

/// Jobs that wait for nothing.
const ALONE: Row = Row {
    jobs: 3,
    others: 0,
    turns: 0,
    last: NEVER,
    kept: Ok(()),
};

#[test]
fn refused_growths_are_made_again(rt: HostRuntime) {
    let came = match comes_so(&rt, rt.alloc(), &ALONE) {
        Err(Refused::NoMemory) => comes_so(&rt, rt.alloc(), &ALONE),
        came => came,
    };
    assert!(rt; came == Ok(true), "{came:?}");
    let came = match spread_so(&rt, rt.alloc(), 2, 3, 0) {
        Err(Refused::NoMemory) => spread_so(&rt, rt.alloc(), 2, 3, 0),
        came => came,
    };
    assert!(rt; came == Ok(true), "{came:?}");
}
