//! How an operation that waits gives way to what it waits for.
ghost use Rattle.std.specs.Prelude.{◌≡◌, ◌≤◌};

use std::rt::Clock;
use std::thread;
use std::time::Duration;

/// How often in a row an operation that finds nothing moved yields its processor, before it sleeps.
const YIELDS: u32 = 32;

/// How often in a row an operation that is to go on does so at once. One that meets nobody takes fewer steps between two pages.
const STEPS_AT_ONCE: u32 = 8;

/// The first pause, in microseconds. Each further one is twice as long, up to a millisecond.
const FIRST_PAUSE: u64 = 50;

/// The longest pause, in microseconds.
const LONGEST_PAUSE: u64 = 1_000;

/// What an operation has seen while it was not finished: how often pages of its partition had been moved, how often in a row it has
/// found that no more were, and how often in a row it was to go on.
#[derive(Clone, Copy, Debug, Default)]
pub(crate) struct Patience {
    moves: u64,
    idle: u32,
    steps: u32,
}

/// The pause of an operation that found nothing moved so often in a row, in microseconds; none where it yields.
fn pause_after(idle: u32) -> u64
    ensures yields { idle ≤ 32 → result ≡ 0 }
    ensures longest { result ≤ 1000 }
{
    let Some(doubled) = idle.checked_sub(YIELDS + 1) else {
        return 0;
    };
    (FIRST_PAUSE << doubled.min(5)).min(LONGEST_PAUSE)
}

/// Yields, or sleeps where an operation has given way so often in a row.
fn pause(rt: &impl Clock, idle: u32) {
    match pause_after(idle) {
        0 => thread::yield_now(),
        pause => thread::sleep(rt, Duration::from_micros(pause)),
    }
}

impl Patience {
    /// Gives way, where pages have been moved so often by now: yields where more were moved since the last time, else by and
    /// by longer, so that what it waits for may come, and no processor is busy with waiting.
    pub(crate) fn give_way(&mut self, rt: &impl Clock, moves: u64) {
        if self.moves == moves {
            self.idle = self.idle.saturating_add(1);
        } else {
            self.moves = moves;
            self.idle = 0;
        }
        pause(rt, self.idle);
    }

    /// Gives way, where an operation is to go on once more and has done so for long. It then meets another that makes an entry
    /// of the same class, and neither makes one while both try: who has lost its processor meanwhile needs it to go on.
    pub(crate) fn go_on(&mut self, rt: &impl Clock) {
        self.steps = self.steps.saturating_add(1);
        if let Some(more) = self.steps.checked_sub(STEPS_AT_ONCE) {
            pause(rt, more);
        }
    }

    /// An operation is to read a page: it does not go on in vain.
    pub(crate) fn reads(&mut self) {
        self.steps = 0;
    }
}
