//! What a run did, told beside its table.
ghost use Rattle.std.specs.Prelude.{◌≡◌, ◌++◌, ◌-◌, ◌/◌, ◌^◌, ◌<◌, ◌≤◌, ℕ, List, length, IfOk, IfErr, IfSome, IsSome, OnOk, codes, decimal};
ghost use Rattle.std.specs.Duration.{as_nanos};
ghost use Rattle.fkv_streams.specs.Streams.{AppendsPrefix};
ghost use Rattle.fkv_commands.specs.Reports.{IsTold, appended_text, fact, peak_text, seconds_text};

use crate::advising::add_advice;
use fkv_feeds::{Plan, RunCounts, SpilledRun, TableRun};
use fkv_functions::Refused;
use fkv_meters::MeterReadings;
use fkv_requests::Shown;
use fkv_streams::{Sink, write_out};
use std::alloc::Global;
use std::io::{self, Write};
use std::time::Duration;

/// What a run did.
#[derive(Clone, Copy, Debug, PartialEq, Eq)]
pub struct RunReport {
    /// The keys of its table.
    pub keys: usize,
    /// Its rows, and the records that they appended.
    pub counts: RunCounts,
    /// How it was made.
    pub plan: Plan,
    /// What went to its device and came back.
    pub seen: MeterReadings,
    /// The milliseconds from its beginning to the table's end, where the clock tells them.
    pub millis: Option<u64>,
    /// The KiB of memory that its process had at most, where the system tells it.
    pub peak: Option<u64>,
}

/// How much a run did whose table stands on its device, and how.
#[derive(Clone, Copy, Debug, PartialEq, Eq)]
pub(crate) struct SpilledReport {
    keys: usize,
    counts: RunCounts,
    plan: Plan,
}

impl SpilledReport {
    /// That of this run.
    pub(crate) fn of<V, R, P>(run: &SpilledRun<V, R, P>) -> SpilledReport
        ensures { result ≡ record { keys = run.now.keys; counts = run.now.counts; plan = run.now.plan } }
    {
        SpilledReport {
            keys: run.keys,
            counts: run.counts,
            plan: run.plan,
        }
    }
}

/// The milliseconds between two moments of a clock; `None` where it failed, or went back.
fn millis_between(begun: io::Result<Duration>, ended: io::Result<Duration>) -> Option<u64>
    ensures right { IfSome result (λ millis. IfOk begun (λ b. IfOk ended (λ e. millis ≡ (as_nanos e - as_nanos b) / 1_000_000))) }
    ensures some { IfOk begun (λ b. IfOk ended (λ e. as_nanos b ≤ as_nanos e
        → (as_nanos e - as_nanos b) / 1_000_000 < 2 ^ 64 → IsSome result)) }
{
    let Ok(begun) = begun else {
        return None;
    };
    let Ok(ended) = ended else {
        return None;
    };
    let taken = ended.checked_sub(begun)?;
    u64::try_from(taken.as_millis()).ok()
}

/// Adds a line that names a number. Refused: `NoMemory`.
fn add_fact(text: &mut Vec<u8>, name: &str, number: u64) -> Result<(), Refused>
    ensures ok { OnOk result (text.new.items ≡ text.old.items ++ fact name.now number) }
    ensures only { IfErr result (λ refused. refused ≡ Refused.NoMemory) }
{
    match writeln!(text, "fkv_cli: {name} {number}") {
        Ok(()) => Ok(()),
        Err(_) => Err(Refused::NoMemory),
    }
}

impl RunReport {
    /// What a run did between these two moments.
    pub fn new<V>(
        run: &TableRun<V>,
        seen: MeterReadings,
        begun: io::Result<Duration>,
        ended: io::Result<Duration>,
        peak: Option<u64>,
    ) -> RunReport
        ensures keys { result.keys ≡ length run.now.table }
        ensures counts { result.counts ≡ run.now.counts }
        ensures plan { result.plan ≡ run.now.plan }
        ensures seen { result.seen ≡ seen }
        ensures peak { result.peak ≡ peak }
    {
        RunReport {
            keys: run.table.len(),
            counts: run.counts,
            plan: run.plan,
            seen,
            millis: millis_between(begun, ended),
            peak,
        }
    }

    /// What a run did between these two moments whose table was written from its device.
    pub(crate) fn of_spilled(
        ran: SpilledReport,
        seen: MeterReadings,
        begun: io::Result<Duration>,
        ended: io::Result<Duration>,
        peak: Option<u64>,
    ) -> RunReport
        ensures keys { result.keys ≡ ran.keys }
        ensures counts { result.counts ≡ ran.counts }
        ensures plan { result.plan ≡ ran.plan }
        ensures seen { result.seen ≡ seen }
        ensures peak { result.peak ≡ peak }
    {
        RunReport {
            keys: ran.keys,
            counts: ran.counts,
            plan: ran.plan,
            seen,
            millis: millis_between(begun, ended),
            peak,
        }
    }

    /// The text of it, a line a fact, and then advice on memory for this table. Of a run that several workers shared, appended
    /// records are not counted. Refused: `NoMemory`.
    fn text(&self, alloc: Global, shown: Shown, sized: bool) -> Result<Vec<u8>, Refused>
        ensures ok { IfOk result (λ text. IsTold shown sized self.now text.items) }
        ensures only { IfErr result (λ refused. refused ≡ Refused.NoMemory) }
    {
        let mut text = Vec::new(alloc);
        add_fact(&mut text, "rows", self.counts.rows)?;
        add_fact(&mut text, "keys", self.keys as u64)?;
        self.add_appended(&mut text)?;
        add_fact(&mut text, "pages written", self.seen.pages_written)?;
        add_fact(&mut text, "pages read", self.seen.pages_read)?;
        add_fact(&mut text, "bytes on the device", self.seen.bytes_written)?;
        self.add_seconds(&mut text)?;
        self.add_peak(&mut text)?;
        add_advice(shown, sized, self, &mut text)?;
        Ok(text)
    }

    /// Adds how many rows appended a record, and how many changed one in place, where that is counted. Refused: `NoMemory`.
    fn add_appended(&self, text: &mut Vec<u8>) -> Result<(), Refused>
        ensures ok { OnOk result (text.new.items
            ≡ text.old.items ++ appended_text self.now.counts.rows self.now.counts.appended) }
        ensures only { IfErr result (λ refused. refused ≡ Refused.NoMemory) }
    {
        let RunCounts { rows, appended } = self.counts;
        let Some(appended) = appended else {
            return Ok(());
        };
        add_fact(text, "records appended", appended)?;
        add_fact(text, "updates in place", rows.saturating_sub(appended))
    }

    /// Adds the seconds that it took, where the clock told them. Refused: `NoMemory`.
    fn add_seconds(&self, text: &mut Vec<u8>) -> Result<(), Refused>
        ensures ok { OnOk result (text.new.items ≡ text.old.items ++ seconds_text self.now.millis) }
        ensures only { IfErr result (λ refused. refused ≡ Refused.NoMemory) }
    {
        let Some(millis) = self.millis else {
            return Ok(());
        };
        let (seconds, tenths) = (millis / 1_000, millis % 1_000 / 100);
        let (hundredths, thousandths) = (millis / 10 % 10, millis % 10);
        match writeln!(
            text,
            "fkv_cli: seconds {seconds}.{tenths}{hundredths}{thousandths}"
        ) {
            Ok(()) => Ok(()),
            Err(_) => Err(Refused::NoMemory),
        }
    }

    /// Adds how much memory its process had at most, where the system told it. Refused: `NoMemory`.
    fn add_peak(&self, text: &mut Vec<u8>) -> Result<(), Refused>
        ensures ok { OnOk result (text.new.items ≡ text.old.items ++ peak_text self.now.peak) }
        ensures only { IfErr result (λ refused. refused ≡ Refused.NoMemory) }
    {
        let Some(peak) = self.peak else {
            return Ok(());
        };
        add_fact(text, "peak memory in KiB", peak)
    }

    /// Tells it, with advice on memory for this table where the words name no size of it, as `sized` says. Where it can not be
    /// told, the table stands all the same.
    pub fn tell<E: Sink>(&self, alloc: Global, shown: Shown, sized: bool, faults: &mut E)
        ensures { (text : List ℕ) × IsTold shown sized self.now text
            × AppendsPrefix (E.contents faults.old) (E.contents faults.new) text }
    {
        if let Ok(text) = self.text(alloc, shown, sized) {
            let _untold = write_out(faults, text.as_slice());
        }
    }
}
