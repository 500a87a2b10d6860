//! What would make a run read fewer pages.
ghost use Rattle.std.specs.Prelude.{◌≡◌, ◌≤◌, ◌*◌, ◌++◌, ℕ, IfErr, OnOk};
ghost use Rattle.fkv_commands.specs.Advice.{advice_text, read_back, is_advised, keys_of_a_mebibyte};

use crate::reporting::RunReport;
use fkv_functions::Refused;
use fkv_requests::Shown;
use std::io::Write;

/// How many rows read a page back, about: each page that was written is read once for the list of the keys, and a row seldom reads
/// two.
fn read_back(report: &RunReport) -> u64
    ensures { result ≡ read_back report.now.counts.rows report.now.seen.pages_read report.now.seen.pages_written }
{
    let seen = report.seen;
    let pages = seen.pages_read.saturating_sub(seen.pages_written);
    pages.min(report.counts.rows)
}

/// Whether more memory is to be advised: more than one row in ten read a page back, and the words do not say how much there is.
fn is_advised(sized: bool, report: &RunReport) -> bool
    ensures { result ≡ is_advised sized report.now.counts.rows report.now.seen.pages_read report.now.seen.pages_written }
{
    !sized && read_back(report) > report.counts.rows / 10
}

/// The keys for which five eighths of a MiB have 64 bytes each: no record of counts, sums or maxima takes more. A quarter is for
/// buckets, and an eighth for what grows with the table.
const KEYS_OF_A_MEBIBYTE: u64 = 10_240;

/// The keys for which they have 80 bytes each, as a record of a summary takes.
const SUMMARIES_OF_A_MEBIBYTE: u64 = 8_192;

/// A power of two of MiB that have room for the records of so many keys.
fn mebibytes_for(shown: Shown, keys: u64) -> u64
    ensures { keys ≤ result * keys_of_a_mebibyte shown }
{
    match shown {
        Shown::Summary => keys.div_ceil(SUMMARIES_OF_A_MEBIBYTE).next_power_of_two(),
        Shown::Count | Shown::Sum | Shown::Max => {
            keys.div_ceil(KEYS_OF_A_MEBIBYTE).next_power_of_two()
        }
    }
}

/// Adds how much memory would hold the pages that rows read back, where it is to be advised: where the words name no size, as
/// `sized` says. Refused: `NoMemory`.
pub(crate) fn add_advice(
    shown: Shown,
    sized: bool,
    report: &RunReport,
    text: &mut Vec<u8>,
) -> Result<(), Refused>
    ensures ok { OnOk result ((size : ℕ) × (report.now.keys ≤ size * keys_of_a_mebibyte shown)
        × (text.new.items ≡ text.old.items ++ advice_text sized size report.now)) }
    ensures only { IfErr result (λ refused. refused ≡ Refused.NoMemory) }
{
    let size = mebibytes_for(shown, report.keys as u64);
    if !is_advised(sized, report) {
        return Ok(());
    }
    let back = read_back(report);
    let rows = report.counts.rows;
    match writeln!(
        text,
        "fkv_cli: {back} of {rows} rows read a page back; --memory {size}M would hold them"
    ) {
        Ok(()) => Ok(()),
        Err(_) => Err(Refused::NoMemory),
    }
}
