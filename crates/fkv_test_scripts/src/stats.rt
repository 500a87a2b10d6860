//! What a run does that its table does not show: the pages that it moves, the rows that it tells of, and help.
use crate::commands::{ends, ends_by, split, start};
use fkv_commands::reporting::RunReport;
use fkv_commands::{FeedFiles, run};
use fkv_feeds::{Plan, RowMode, RunCounts};
use fkv_meters::{MeterReadings, ReadProgress, Silent};
use fkv_partition::Config;
use fkv_requests::{Request, Shown, request_of};
use fkv_streams::{CountedReader, CountedWriter};
use std::sync::atomic::{AtomicBool, AtomicU64, Ordering};
use std::{fs, io};

/// Twenty keys of one partition and the first of them again. Records of sums take 56 bytes, and the first begins at 64: three
/// stand on page 0, four on each of the next four pages of 256 bytes, and two on page 5.
const LETTERS: &str =
    "a,1\nb,1\nc,1\nd,1\ne,1\nf,1\ng,1\nh,1\ni,1\nj,1\nk,1\nl,1\nm,1\nn,1\no,1\np,1\nq,1\nr,1\ns,1\nt,1\na,1\n";

const LETTERS_TOLD: &str =
    "a,2\nb,1\nc,1\nd,1\ne,1\nf,1\ng,1\nh,1\ni,1\nj,1\nk,1\nl,1\nm,1\nn,1\no,1\np,1\nq,1\nr,1\ns,1\nt,1\n";

/// Options of `sum --stats` over [`LETTERS`], and its report as far as the seconds: the records appended, the updates in place,
/// the pages written and read, and the bytes.
const MOVED: [(&str, [u64; 5]); 7] = [
    // all six pages are in frames
    (
        "--partition-bits 0 --page-bits 8 --frames 1024",
        [20, 1, 0, 0, 0],
    ),
    (
        "--partition-bits 0 --page-bits 8 --frames 8",
        [20, 1, 0, 0, 0],
    ),
    // page 2 waits for a frame, and so does page 4: the pages below them leave. The second row of `a` reads page 0, and the
    // list of keys each of the four
    (
        "--partition-bits 0 --page-bits 8 --frames 2",
        [21, 0, 4, 5, 1024],
    ),
    // a merge reads no page
    (
        "--partition-bits 0 --page-bits 8 --frames 2 --merge",
        [21, 0, 4, 4, 1024],
    ),
    // pages of 512 bytes: eight records on page 0, nine on page 1, four on page 2
    (
        "--partition-bits 0 --page-bits 9 --frames 2",
        [21, 0, 2, 3, 1024],
    ),
    // 2^10 buckets leave nothing of 1K, so there are two frames of 256 bytes
    (
        "--partition-bits 0 --bucket-bits 10 --memory 1K",
        [21, 0, 4, 5, 1024],
    ),
    // each partition has its own frames, which hold its keys
    (
        "--partition-bits 2 --page-bits 8 --frames 4",
        [20, 1, 0, 0, 0],
    ),
];

#[test]
fn pages_that_move(rt: HostRuntime) -> io::Result<()> {
    for (options, [appended, in_place, written, read, bytes]) in MOVED {
        let line = format!(in rt.alloc(); "fkv_cli sum --stats {options}")?;
        let told = format!(in rt.alloc();
            "fkv_cli: rows 21\nfkv_cli: keys 20\nfkv_cli: records appended {appended}\nfkv_cli: updates in place {in_place}\nfkv_cli: pages written {written}\nfkv_cli: pages read {read}\nfkv_cli: bytes on the device {bytes}\nfkv_cli: seconds "
        )?;
        let run = start(line.as_str(), LETTERS);
        assert!(rt;
            ends(&rt, rt.alloc(), run, 0, LETTERS_TOLD, told.as_str()),
            "{options}"
        );
    }
    Ok(())
}

/// How a run of one worker was made.
const PLAN: Plan = Plan {
    config: Config {
        id: 1,
        partition_bits: 0,
        bucket_bits: 8,
        page_bits: 8,
        frames: 2,
        turns: 1,
    },
    mode: RowMode::Update,
    workers: 1,
};

/// Milliseconds, KiB of memory, and the last lines of a report.
const SECONDS: [(Option<u64>, Option<u64>, &str); 8] = [
    (Some(0), None, "fkv_cli: seconds 0.000\n"),
    (Some(7), None, "fkv_cli: seconds 0.007\n"),
    (Some(999), None, "fkv_cli: seconds 0.999\n"),
    (Some(1_000), None, "fkv_cli: seconds 1.000\n"),
    (Some(61_050), None, "fkv_cli: seconds 61.050\n"),
    (None, None, ""),
    (
        Some(20),
        Some(84_512),
        "fkv_cli: seconds 0.020\nfkv_cli: peak memory in KiB 84512\n",
    ),
    (None, Some(0), "fkv_cli: peak memory in KiB 0\n"),
];

#[test]
fn seconds_of_reports(rt: HostRuntime) -> io::Result<()> {
    for (millis, peak, line) in SECONDS {
        let report = RunReport {
            keys: 2,
            counts: RunCounts {
                rows: 9,
                appended: Some(4),
            },
            plan: PLAN,
            seen: MeterReadings {
                pages_written: 11,
                pages_read: 12,
                bytes_written: 13,
            },
            millis,
            peak,
        };
        let text = format!(in rt.alloc();
            "fkv_cli: rows 9\nfkv_cli: keys 2\nfkv_cli: records appended 4\nfkv_cli: updates in place 5\nfkv_cli: pages written 11\nfkv_cli: pages read 12\nfkv_cli: bytes on the device 13\n{line}"
        )?;
        let mut told = Vec::new(rt.alloc());
        report.tell(
            rt.alloc(),
            Shown::Sum,
            true,
            &mut CountedWriter::new(&mut told),
        );
        assert!(rt; told.as_slice() == text.as_bytes(), "{millis:?}");
    }
    Ok(())
}

/// Words, the keys and the rows of a run, the pages that were written and those that were read, and what is advised.
const ADVISED: [(&str, usize, u64, u64, u64, &str); 11] = [
    (
        "fkv_cli sum --stats",
        632_120,
        1_000_000,
        540,
        360_959,
        "fkv_cli: 360419 of 1000000 rows read a page back; --memory 64M would hold them\n",
    ),
    // five eighths of 2^20 bytes are 64 for each of 10,240 keys
    (
        "fkv_cli count --stats --page-bits 8",
        10_240,
        20_000,
        0,
        2_001,
        "fkv_cli: 2001 of 20000 rows read a page back; --memory 1M would hold them\n",
    ),
    (
        "fkv_cli max --stats --dir pages",
        10_241,
        20_000,
        0,
        2_001,
        "fkv_cli: 2001 of 20000 rows read a page back; --memory 2M would hold them\n",
    ),
    // and 80 for each of 8,192, as a record of a summary takes
    (
        "fkv_cli summary --stats",
        8_192,
        20_000,
        0,
        2_001,
        "fkv_cli: 2001 of 20000 rows read a page back; --memory 1M would hold them\n",
    ),
    (
        "fkv_cli summary --stats --merge",
        8_193,
        20_000,
        0,
        2_001,
        "fkv_cli: 2001 of 20000 rows read a page back; --memory 2M would hold them\n",
    ),
    // one row in ten is not more than that
    ("fkv_cli sum --stats", 10_240, 20_000, 0, 2_000, ""),
    // pages that only the list of the keys reads
    ("fkv_cli sum --stats", 10_240, 20, 40, 40, ""),
    ("fkv_cli sum --stats", 10_240, 20, 40, 39, ""),
    // there are no more such rows than rows
    (
        "fkv_cli sum --stats",
        0,
        20,
        0,
        2_000,
        "fkv_cli: 20 of 20 rows read a page back; --memory 1M would hold them\n",
    ),
    // the words say how much there is
    (
        "fkv_cli sum --stats --memory 64M",
        10_240,
        20_000,
        0,
        9_000,
        "",
    ),
    (
        "fkv_cli sum --stats --frames 4",
        10_240,
        20_000,
        0,
        9_000,
        "",
    ),
];

#[test]
fn advice_of_reports(rt: HostRuntime) -> io::Result<()> {
    for (at, (line, keys, rows, pages_written, pages_read, text)) in ADVISED
        .into_iter()
        .enumerate()
    {
        let report = RunReport {
            keys,
            counts: RunCounts {
                rows,
                appended: None,
            },
            plan: PLAN,
            seen: MeterReadings {
                pages_written,
                pages_read,
                bytes_written: 0,
            },
            millis: None,
            peak: None,
        };
        let mut bare = Vec::new(rt.alloc());
        report.tell(
            rt.alloc(),
            Shown::Sum,
            true,
            &mut CountedWriter::new(&mut bare),
        );
        let words = split(rt.alloc(), line)?;
        let mut told = Vec::new(rt.alloc());
        let mut faults = CountedWriter::new(&mut told);
        match request_of(rt.alloc(), words.as_slice()) {
            Ok(Request::Table(table)) => report.tell(
                rt.alloc(),
                table.shown,
                table.sized,
                &mut faults,
            ),
            _ => panic!(rt; "row {at} asks for no table"),
        }
        bare.extend_from_slice(text.as_bytes())?;
        assert!(rt; told.as_slice() == bare.as_slice(), "row {at}");
    }
    Ok(())
}

/// Words of runs over [`LETTERS`] twice, and whether their reports end with advice. Each report names the peak of memory, where the
/// system tells it.
const ENDS: [(&str, bool); 5] = [
    ("fkv_cli sum --stats --partition-bits 0 --page-bits 8", true),
    (
        "fkv_cli sum --stats --partition-bits 0 --page-bits 8 --frames 4",
        false,
    ),
    ("fkv_cli sum --stats --partition-bits 0 --memory 1K", false),
    (
        "fkv_cli sum --stats --partition-bits 0 --page-bits 8 --merge",
        false,
    ),
    ("fkv_cli sum --partition-bits 0 --page-bits 8", false),
];

#[test]
fn reports_that_end_with_advice(rt: HostRuntime) -> io::Result<()> {
    let input = format!(in rt.alloc(); "{LETTERS}{LETTERS}")?;
    let is_linux = fs::metadata(&rt, "/proc/self/status").is_ok();
    for (line, is_advised) in ENDS {
        let words = split(rt.alloc(), line)?;
        let mut told = Vec::new(rt.alloc());
        let mut printed = Vec::new(rt.alloc());
        let ended = run(
            &rt,
            rt.alloc(),
            words.as_slice(),
            &mut CountedReader::new(input.as_bytes()),
            &mut CountedWriter::new(&mut printed),
            &mut CountedWriter::new(&mut told),
            &Silent,
            &FeedFiles::new(&rt, &Silent),
        );
        assert!(rt; ended.status == 0, "{line}");
        let has_advice = told
            .as_slice()
            .ends_with(b"; --memory 1M would hold them\n");
        assert!(rt; has_advice == is_advised, "{line}");
        let tells_peak = str::from_utf8(told.as_slice()).is_ok_and(|text| text.contains(
            "\nfkv_cli: peak memory in KiB ",
        ));
        assert!(rt;
            tells_peak == (is_linux && line.contains("--stats")),
            "{line}"
        );
    }
    Ok(())
}

/// Whether a run was to tell how far it is, how many line ends it was told of, and how often that it was over.
#[derive(Drop)]
struct Heard {
    has_begun: AtomicBool,
    lines: AtomicU64,
    ends: AtomicU64,
}

impl ReadProgress for Heard {
    fn begin(&self) {
        self.has_begun.store(true, Ordering::SeqCst);
    }

    fn read(&self, bytes: &[u8]) {
        let lines = bytes.iter().filter(|byte| **byte == 10).count() as u64;
        self.lines.fetch_add(lines, Ordering::SeqCst);
    }

    fn end(&self) {
        self.ends.fetch_add(1, Ordering::SeqCst);
    }
}

/// Words, whether they ask for progress, and the line ends of the feeds that they name.
const HEARD: [(&str, bool, u64); 7] = [
    ("fkv_cli sum --progress heard/a heard/b", true, 3),
    (
        "fkv_cli sum --progress --workers 2 heard/a heard/b",
        true,
        3,
    ),
    ("fkv_cli sum --progress", true, 0),
    ("fkv_cli sum --merge heard/b", false, 1),
    ("fkv_cli sum --stats heard/a", false, 2),
    ("fkv_cli sum --audit heard/a", false, 2),
    ("fkv_cli sum", false, 0),
];

#[test]
fn progress_that_is_told(rt: HostRuntime) -> io::Result<()> {
    fs::create_dir_all(&rt, "heard")?;
    fs::write(&rt, "heard/a", "a,1\nb,2\n")?;
    fs::write(&rt, "heard/b", "a,4\n")?;
    for (line, has_begun, lines) in HEARD {
        let printed = match lines {
            3 => "a,5\nb,2\n",
            2 => "a,1\nb,2\n",
            1 => "a,4\n",
            _ => "",
        };
        let heard = Heard {
            has_begun: AtomicBool::new(false),
            lines: AtomicU64::new(0),
            ends: AtomicU64::new(0),
        };
        let mut reader = CountedReader::new(b"".as_slice());
        let run = start(line, "");
        let told = if line.contains("--stats") {
            "fkv_cli: rows 2\n"
        } else {
            ""
        };
        assert!(rt;
            ends_by(&rt, rt.alloc(), run, &mut reader, &heard, 0, printed, told),
            "{line}"
        );
        assert!(rt;
            heard.has_begun.load(Ordering::SeqCst) == has_begun,
            "{line}"
        );
        assert!(rt; heard.lines.load(Ordering::SeqCst) == lines, "{line}");
        assert!(rt; heard.ends.load(Ordering::SeqCst) == 1, "{line}");
    }
    fs::remove_dir_all(&rt, "heard")?;
    Ok(())
}

const SUM_HELP: &str = "Adds up the amounts of each key

Usage: fkv_cli sum [OPTIONS] [FEED]...

Arguments:
  [FEED]...  CSV files, up to 64, of which - is standard input; with none, standard input. Each line is KEY,AMOUNT (count wants an amount too), with no header: KEY has 1 to 31 bytes, AMOUNT is a whole number of 64 bits

Options:
      --memory <SIZE>       How much memory the store may take, as 64M or 2G, an eighth of it for what grows with the table; it sets --partition-bits, --bucket-bits, --page-bits and --frames, where they are not given
      --dir <PATH>          Keep pages in files of this folder, made anew; without it they are kept in memory
      --workers <N>         How many threads read the feeds, in blocks that they share: 1 to 14 [default: 1]
      --merge               Make a row a merge where it would read a page
      --spill               Keep the table in pages of --dir until it is written, for one larger than memory; it can't stand with --audit. A page that can't be read may then end the run after a part of the table was written
      --stats               Tell on standard error, at the end, what the run did
      --progress            Tell on standard error, as it goes, how many rows were read
      --audit               Keep every update, and compare them at the end with what the workers were answered
      --partition-bits <N>  There are 2 to this many partitions: 0 to 6; of several workers 6 where neither it nor --memory is given [default: 2]
      --bucket-bits <N>     There are 2 to this many buckets in each: 0 to 20 [default: 10]
      --page-bits <N>       A page has 2 to this many bytes: 8 to 20 [default: 16]
      --frames <N>          The page frames of each partition: 2 to 1024 [default: 4]
  -h, --help                Print help
";

#[test]
fn help_of_tables(rt: HostRuntime) {
    let run = start("fkv_cli sum --help", "");
    assert!(rt; ends(&rt, rt.alloc(), run, 0, SUM_HELP, ""));
}
