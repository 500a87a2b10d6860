//! Whole runs as rows: their statuses and their texts. Scripts stand in `fkv_test_steps`.
use fkv_commands::FeedFiles;
use fkv_commands::running::{refuse_words, run, tell};
use fkv_device::PageFile;
use fkv_functions::{Refused, What};
use fkv_meters::{ReadProgress, Silent};
use fkv_requests::{command_lines, words_of};
use fkv_streams::{CountedReader, CountedWriter, Source};
use fkv_test_streams::{Breaking, Filling};
use std::alloc::{AllocError, Global};
use std::env;
use std::fs::Files;
use std::rt::Clock;
use std::sync::Wait;
use std::test::Fail;
use std::thread::Threads;

pub(crate) const THIN_PATH: &str = "store sum 0 8 8 2
enter 0
do 0 0 rmw a 5
do 0 0 rmw a -2
do 0 0 read a
";

pub(crate) const THIN_PATH_TOLD: &str = "entered 0
done value 5
done value 3
done value 3
map 1
a 3
";

pub(crate) const HELP: &str = "A proved key-value store for per-key state

Usage: fkv_cli [COMMAND]

Commands:
  replay   Runs the script on standard input, and prints what it tells
  count    Counts the rows of each key
  sum      Adds up the amounts of each key
  max      Finds the greatest amount of each key
  summary  Writes KEY,COUNT,SUM,MIN,MAX for each key
  help     Print this message or the help of the given subcommand(s)

Options:
  -h, --help     Print help
  -V, --version  Print version

Examples:
  fkv_cli sum january.csv february.csv
  fkv_cli count --workers 4 --memory 2G --dir pages *.csv
";

const REPLAY_HELP: &str = "Runs the script on standard input, and prints what it tells

Usage: fkv_cli replay

Options:
  -h, --help  Print help
";

/// The words of a command line, parted by spaces.
pub(crate) fn split(alloc: Global, line: &str) -> Result<Vec<String>, AllocError> {
    let mut words = Vec::new(alloc);
    for word in line.split(' ') {
        let word = String::from_str(alloc, word)?;
        words.push(word)?;
    }
    Ok(words)
}

/// The bytes of an input that a call gives at the most, where they are few.
pub(crate) const PIECE: usize = 7;

/// A run: its command line, its input with the bytes of it that a call gives at the most and the calls after which it fails,
/// and the bytes after which the output and what stands beside it are full.
#[derive(Clone, Copy)]
pub(crate) struct Launch<'a> {
    pub(crate) line: &'a str,
    pub(crate) input: &'a str,
    pub(crate) piece: usize,
    pub(crate) calls: u64,
    pub(crate) room: usize,
    pub(crate) beside: usize,
}

/// A run in which nothing fails.
pub(crate) const fn start<'a>(line: &'a str, input: &'a str) -> Launch<'a> {
    Launch {
        line,
        input,
        piece: PIECE,
        calls: u64::MAX,
        room: usize::MAX,
        beside: usize::MAX,
    }
}

/// Whether a run ends with this status, and prints this and tells what begins so.
pub(crate) fn ends<H: Files + Threads + Wait + Clock + Sync>(
    rt: &H,
    alloc: Global,
    start: Launch<'_>,
    status: u8,
    printed: &str,
    told: &str,
) -> bool
where
    H::File: PageFile + Send,
    H::Dir: Send,
{
    let reader = Breaking::new(start.input.as_bytes(), start.piece, start.calls);
    let mut reader = CountedReader::new(reader);
    ends_by(
        rt,
        alloc,
        start,
        &mut reader,
        &Silent,
        status,
        printed,
        told,
    )
}

/// Whether a run over this reader, which tells this hook how far it is, ends with this status, and prints this and tells what
/// begins so. Where it is done, all that it prints is out.
pub(crate) fn ends_by<R: Source, H: Files + Threads + Wait + Clock + Sync, P: ReadProgress + Sync>(
    rt: &H,
    alloc: Global,
    start: Launch<'_>,
    reader: &mut R,
    hook: &P,
    status: u8,
    printed: &str,
    told: &str,
) -> bool
where
    H::File: PageFile + Send,
    H::Dir: Send,
{
    let Ok(words) = split(alloc, start.line) else {
        return false;
    };
    let mut writer = Filling::with_room(alloc, usize::MAX, start.room);
    let mut faults = Filling::with_room(alloc, usize::MAX, start.beside);
    let ended = run(
        rt,
        alloc,
        words.as_slice(),
        reader,
        &mut CountedWriter::new(&mut writer),
        &mut CountedWriter::new(&mut faults),
        hook,
        &FeedFiles::new(rt, hook),
    );
    if status == 0 && writer.out != printed.len() {
        return false;
    }
    // a report ends with the seconds that the run took
    let is_told = if status == 2 || start.line.contains("--stats") {
        faults.text.starts_with(told.as_bytes())
    } else {
        faults.text.as_slice() == told.as_bytes()
    };
    ended.status == status && writer.text.as_slice() == printed.as_bytes() && is_told
}

pub(crate) const BAD_ROW: &str = "fkv_cli: bad row 2 of feed 1\nfkv_cli: standard input, row 2\n";

pub(crate) const NO_FEED: &str =
    "fkv_cli: cannot read input 1\nfkv_cli: feed 1 is 'no-such-file': no such file\n";

/// More keys than two frames of 256 bytes hold, and the first of them again.
pub(crate) const LETTERS: &str =
    "a,1\nb,1\nc,1\nd,1\ne,1\nf,1\ng,1\nh,1\ni,1\nj,1\nk,1\nl,1\nm,1\nn,1\no,1\np,1\nq,1\nr,1\ns,1\nt,1\na,1\n";

pub(crate) const LETTERS_TOLD: &str =
    "a,2\nb,1\nc,1\nd,1\ne,1\nf,1\ng,1\nh,1\ni,1\nj,1\nk,1\nl,1\nm,1\nn,1\no,1\np,1\nq,1\nr,1\ns,1\nt,1\n";

const BAD_SIZE: &str =
    "error: --memory takes a number of one to eighteen digits with K, M, G or T behind it, such as 64M\n";

const BARE_SIZE: &str =
    "error: --memory takes a unit behind its number: K, M, G or T, such as 64M\n";

pub(crate) const NO_FOLDER: &str =
    "fkv_cli: device fault 1 on page 0\nfkv_cli: the folder '/dev/null/pages' can't be made or written: Not a directory (os error 20)\n";

/// Command lines, inputs, statuses, what is printed, and what is told beside it; of a mistake its first line.
const RUNS: [(&str, &str, u8, &str, &str); 74] = [
    ("fkv_cli", THIN_PATH, 0, THIN_PATH_TOLD, ""),
    ("fkv_cli replay", THIN_PATH, 0, THIN_PATH_TOLD, ""),
    ("fkv_cli --", THIN_PATH, 0, THIN_PATH_TOLD, ""),
    ("fkv_cli replay", "store sum 0 8 8 2", 0, "map 0\n", ""),
    // a replay with refused steps is done
    (
        "fkv_cli",
        "store sum 0 8 8 2\nread 0 0 a\nenter 0\nenter 1\n",
        0,
        "refused Unknown\nentered 0\nrefused Unknown\nmap 0\n",
        "",
    ),
    ("fkv_cli replay", "", 1, "", "fkv_cli: bad script line 1\n"),
    (
        "fkv_cli replay",
        "store sum 0 8 8 2\nenter\nenter 0\n",
        1,
        "",
        "fkv_cli: bad script line 2\n",
    ),
    (
        "fkv_cli replay",
        "store sum 0 8 7 2\n",
        1,
        "",
        "fkv_cli: bad configuration\n",
    ),
    // where a line is bad the configuration is not asked
    (
        "fkv_cli",
        "store sum 0 8 7 2\nenter\n",
        1,
        "",
        "fkv_cli: bad script line 2\n",
    ),
    ("fkv_cli --help", THIN_PATH, 0, HELP, ""),
    ("fkv_cli -h", THIN_PATH, 0, HELP, ""),
    ("fkv_cli help", "", 0, HELP, ""),
    ("fkv_cli replay --help", "", 0, REPLAY_HELP, ""),
    ("fkv_cli --version", THIN_PATH, 0, "fkv_cli 0.1.0\n", ""),
    ("fkv_cli -V", "", 0, "fkv_cli 0.1.0\n", ""),
    // the version is the program's, and no subcommand's
    (
        "fkv_cli sum --version",
        "a,1\n",
        2,
        "",
        "error: unexpected argument '--version' found\n",
    ),
    (
        "fkv_cli reply",
        THIN_PATH,
        2,
        "",
        "error: unrecognized subcommand 'reply'\n",
    ),
    (
        "fkv_cli replay more",
        THIN_PATH,
        2,
        "",
        "error: unexpected argument 'more' found\n",
    ),
    (
        "fkv_cli --workers",
        THIN_PATH,
        2,
        "",
        "error: unexpected argument '--workers' found\n",
    ),
    (
        "fkv_cli help more",
        THIN_PATH,
        2,
        "",
        "error: unrecognized subcommand 'more'\n",
    ),
    // tables of standard input
    ("fkv_cli sum", "a,5\nb,7\na,-2\n", 0, "a,3\nb,7\n", ""),
    ("fkv_cli count", "a,5\nb,7\na,-2\n", 0, "a,2\nb,1\n", ""),
    (
        "fkv_cli max --partition-bits 0 --bucket-bits=0 --page-bits 8 --frames 2",
        "a,5\nb,7\na,-2\n",
        0,
        "a,5\nb,7\n",
        "",
    ),
    ("fkv_cli sum", "", 0, "", ""),
    // after a row, a key of 32 bytes, an empty key, amounts that are none, and three fields
    (
        "fkv_cli sum",
        "a,5\nabcdefghijklmnopqrstuvwxyz012345,1\n",
        1,
        "",
        BAD_ROW,
    ),
    ("fkv_cli sum", "a,5\n,1\n", 1, "", BAD_ROW),
    ("fkv_cli sum", "a,5\na,5x\n", 1, "", BAD_ROW),
    (
        "fkv_cli sum",
        "a,5\na,9223372036854775808\n",
        1,
        "",
        BAD_ROW,
    ),
    ("fkv_cli sum", "a,5\na,1,1\n", 1, "", BAD_ROW),
    ("fkv_cli sum no-such-file", "a,1\n", 1, "", NO_FEED),
    (
        "fkv_cli sum --frames 1",
        "a,1\n",
        2,
        "",
        "error: invalid value '1' for '--frames <N>'",
    ),
    // several workers, and histories that are kept
    (
        "fkv_cli sum --workers 2",
        "a,5\nb,7\na,-2\n",
        0,
        "a,3\nb,7\n",
        "",
    ),
    (
        "fkv_cli sum --workers 14 --audit",
        "a,5\nb,7\na,-2\n",
        0,
        "a,3\nb,7\n",
        "",
    ),
    (
        "fkv_cli count --audit --partition-bits 0 --bucket-bits 0 --page-bits 8 --frames 2",
        LETTERS,
        0,
        LETTERS_TOLD,
        "",
    ),
    (
        "fkv_cli max --stats --audit --dir made/pages --page-bits 8 --frames 2",
        "a,5\nb,7\na,-2\n",
        0,
        "a,5\nb,7\n",
        "fkv_cli: rows 3\nfkv_cli: keys 2\nfkv_cli: pages written 0\n",
    ),
    ("fkv_cli sum --audit", "", 0, "", ""),
    // rows that are made merges come to the same table
    (
        "fkv_cli count --merge --partition-bits 0 --bucket-bits 0 --page-bits 8 --frames 2",
        LETTERS,
        0,
        LETTERS_TOLD,
        "",
    ),
    (
        "fkv_cli count --merge --audit --partition-bits 0 --bucket-bits 0 --page-bits 8 --frames 2",
        LETTERS,
        0,
        LETTERS_TOLD,
        "",
    ),
    (
        "fkv_cli sum --merge=1",
        "a,1\n",
        2,
        "",
        "error: unexpected value '1' for '--merge' found; no more were expected\n",
    ),
    ("fkv_cli sum --audit", "a,5\na,5x\n", 1, "", BAD_ROW),
    (
        "fkv_cli sum --audit --dir /dev/null/pages",
        "a\n",
        1,
        "",
        NO_FOLDER,
    ),
    (
        "fkv_cli sum --workers 0",
        "a,1\n",
        2,
        "",
        "error: invalid value '0' for '--workers <N>'",
    ),
    (
        "fkv_cli sum --workers 15",
        "a,1\n",
        2,
        "",
        "error: invalid value '15' for '--workers <N>'",
    ),
    (
        "fkv_cli sum --audit=1",
        "a,1\n",
        2,
        "",
        "error: unexpected value '1' for '--audit' found; no more were expected\n",
    ),
    // sixty-four feeds may be named, and no more
    (
        "fkv_cli sum no no no no no no no no no no no no no no no no no no no no no no no no no no no no no no no no no no no no no no no no no no no no no no no no no no no no no no no no no no no no no no no no",
        "a,1\n",
        1,
        "",
        "fkv_cli: cannot read input 1\nfkv_cli: feed 1 is 'no': no such file\n",
    ),
    (
        "fkv_cli sum no no no no no no no no no no no no no no no no no no no no no no no no no no no no no no no no no no no no no no no no no no no no no no no no no no no no no no no no no no no no no no no no no",
        "a,1\n",
        2,
        "",
        "error: unexpected value 'no' for '[FEED]...' found; no more were expected\n",
    ),
    // a report: a record for each key, and the second row of `a` in place
    (
        "fkv_cli sum --stats",
        LETTERS,
        0,
        LETTERS_TOLD,
        "fkv_cli: rows 21\nfkv_cli: keys 20\nfkv_cli: records appended 20\nfkv_cli: updates in place 1\nfkv_cli: pages written 0\nfkv_cli: pages read 0\nfkv_cli: bytes on the device 0\nfkv_cli: seconds ",
    ),
    (
        "fkv_cli sum --stats --workers 2 --audit",
        "a,5\nb,7\na,-2\n",
        0,
        "a,3\nb,7\n",
        "fkv_cli: rows 3\nfkv_cli: keys 2\nfkv_cli: pages written 0\nfkv_cli: pages read 0\nfkv_cli: bytes on the device 0\nfkv_cli: seconds ",
    ),
    ("fkv_cli sum --stats", "a,5\na,5x\n", 1, "", BAD_ROW),
    ("fkv_cli sum --progress", "a,5\n", 0, "a,5\n", ""),
    // pages in memory, and in files of a folder, which is made with its parents and used again
    (
        "fkv_cli sum --partition-bits 0 --bucket-bits 0 --page-bits 8 --frames 2",
        LETTERS,
        0,
        LETTERS_TOLD,
        "",
    ),
    (
        "fkv_cli sum --partition-bits 0 --bucket-bits 0 --page-bits 8 --frames 2 --dir made/pages",
        LETTERS,
        0,
        LETTERS_TOLD,
        "",
    ),
    (
        "fkv_cli count --dir made/pages --page-bits 8 --frames 2",
        LETTERS,
        0,
        LETTERS_TOLD,
        "",
    ),
    // the feeds are opened first, then the folder, and the rows are read last
    (
        "fkv_cli sum --dir /dev/null/pages no-such-file",
        "a,1\n",
        1,
        "",
        NO_FEED,
    ),
    ("fkv_cli sum --dir /dev/null/pages", "a\n", 1, "", NO_FOLDER),
    (
        "fkv_cli sum --dir",
        "a,1\n",
        2,
        "",
        "error: a value is required for '--dir <PATH>' but none was supplied\n",
    ),
    // sizes
    ("fkv_cli sum --memory 64M", LETTERS, 0, LETTERS_TOLD, ""),
    (
        "fkv_cli sum --memory 1K --dir made",
        LETTERS,
        0,
        LETTERS_TOLD,
        "",
    ),
    ("fkv_cli sum --memory 64k", "a,1\n", 0, "a,1\n", ""),
    ("fkv_cli sum --memory 64MB", "a,1\n", 0, "a,1\n", ""),
    ("fkv_cli sum --memory 64MiB", "a,1\n", 0, "a,1\n", ""),
    ("fkv_cli sum --memory 1mib", "a,1\n", 0, "a,1\n", ""),
    ("fkv_cli sum --memory 64", "a,1\n", 2, "", BARE_SIZE),
    ("fkv_cli sum --memory 64x", "a,1\n", 2, "", BAD_SIZE),
    ("fkv_cli sum --memory 64Mi", "a,1\n", 2, "", BAD_SIZE),
    ("fkv_cli sum --memory 64MiBs", "a,1\n", 2, "", BAD_SIZE),
    ("fkv_cli sum --memory 6M4", "a,1\n", 2, "", BAD_SIZE),
    ("fkv_cli sum --memory M", "a,1\n", 2, "", BAD_SIZE),
    // 2^24 of 2^40 have no 64 bits
    ("fkv_cli sum --memory 16777216T", "a,1\n", 2, "", BAD_SIZE),
    // an empty path names no folder, and standard input is read once
    (
        "fkv_cli sum --dir=",
        "a,1\n",
        2,
        "",
        "error: --dir takes the path of a folder\n",
    ),
    (
        "fkv_cli sum --dir  no-such-file",
        "a,1\n",
        2,
        "",
        "error: --dir takes the path of a folder\n",
    ),
    (
        "fkv_cli sum - no-such-file -",
        "a,1\n",
        2,
        "",
        "error: standard input can be read once, so '-' may stand once among the feeds\n",
    ),
    (
        "fkv_cli sum --memory 99999999999G",
        "a,1\n",
        2,
        "",
        BAD_SIZE,
    ),
    (
        "fkv_cli sum --memory 2M --page-bits 7",
        "a,1\n",
        2,
        "",
        "error: invalid value '7' for '--page-bits <N>'",
    ),
];

#[test]
fn runs(rt: HostRuntime) {
    command_lines();
    let words = words_of(rt.alloc(), env::args(&rt));
    assert!(rt; words.is_ok_and(|words| !words.is_empty()));
    for (at, (line, input, status, printed, told)) in RUNS.iter().enumerate() {
        let start = start(line, input);
        assert!(rt;
            ends(&rt, rt.alloc(), start, *status, printed, told),
            "run {at}"
        );
    }
}

/// A script of so many lines.
fn script_of(alloc: Global, lines: usize) -> Result<String, AllocError> {
    let mut script = String::from_str(alloc, "store sum 0 8 8 2\n")?;
    for _line in 1..lines {
        script.push_str("enter 7\n")?;
    }
    Ok(script)
}

/// Of a script with a line too many none is run. A trial takes longer for it than the minute that it has: it runs with
/// `RT_SECONDS=600 rt try --test`.
#[test]
fn a_script_of_too_many_lines(rt: HostRuntime) -> Result<(), Fail> {
    let script = script_of(rt.alloc(), 1_000_001)?;
    let start = Launch {
        piece: 8192,
        ..start("fkv_cli", script.as_str())
    };
    let told = "fkv_cli: bad script line 1000001\n";
    assert!(rt; ends(&rt, rt.alloc(), start, 1, "", told));
    Ok(())
}

/// Refusals, and how they are told.
const FAULTS: [(Refused, &[u8]); 4] = [
    (Refused::NoMemory, b"fkv_cli: no memory\n"),
    (Refused::Unwritable, b"fkv_cli: cannot write output\n"),
    (
        Refused::Unreadable { number: 7 },
        b"fkv_cli: cannot read input 7\n",
    ),
    (
        Refused::Stranger {
            what: What::Page,
            held: 2,
            came: 0,
        },
        b"fkv_cli: stranger: held 2, came 0\n",
    ),
];

/// Whether a refusal is told so, with status 1.
fn is_told(alloc: Global, refused: Refused, text: &[u8]) -> bool {
    let mut told = Vec::new(alloc);
    let status = tell(&mut CountedWriter::new(&mut told), refused);
    status == 1 && told.as_slice() == text
}

#[test]
fn faults_are_told_by_their_texts(rt: HostRuntime) {
    for (at, (refused, text)) in FAULTS.iter().enumerate() {
        assert!(rt; is_told(rt.alloc(), *refused, text), "row {at}");
    }
    let mut told = Vec::new(rt.alloc());
    assert!(rt; refuse_words(&mut CountedWriter::new(&mut told)) == 2);
    let text = b"error: invalid UTF-8 was detected in one or more arguments\n";
    assert!(rt; told.as_slice() == text.as_slice());
}
