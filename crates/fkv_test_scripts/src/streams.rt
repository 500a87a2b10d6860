//! Readers and writers that fail, bytes that are no text, and refused growths.
use fkv_functions::Refused;
use fkv_steps::scripts::{LIMIT, one_reading, read_script, run_script};
use fkv_streams::{CountedReader, CountedWriter, write_out};
use fkv_test_streams::{Breaking, Filling};
use std::alloc::Global;
use std::io::{ErrorKind, Write};

/// What running a text is refused by whose reader fails so once, after so many calls, and how much it prints.
fn broken(alloc: Global, text: &[u8], calls: u64, kind: ErrorKind) -> (Option<Refused>, usize) {
    let mut written = Vec::new(alloc);
    let mut reader = CountedReader::new(Breaking::once(text, 5, calls, kind));
    let told = run_script(alloc, &mut reader, &mut CountedWriter::new(&mut written));
    (told.err(), written.len())
}

const UNREADABLE: (Option<Refused>, usize) = (Some(Refused::Unreadable { number: 1 }), 0);

/// Texts, what running them is refused by where nothing fails, and how much that prints. Four calls give the bytes,
/// and the fifth says that there are no more.
const TEXTS: [(&[u8], Option<Refused>, usize); 2] = [
    (b"store sum 0 8 8 2\n", None, 6),
    (
        b"x\nenter 0\nenter 0\n",
        Some(Refused::BadScript { line: 1 }),
        0,
    ),
];

/// Texts, and calls before their end.
const UNREAD: [(&[u8], u64); 4] = [
    (b"", 0),
    (b"bad\n", 1),
    (b"store sum 0 8 8 2\nenter 0\n", 2),
    (b"store sum 0 8 8 2\nenter 0\n", 6),
];

#[test]
fn a_reader_that_fails(rt: HostRuntime) {
    for (text, refused, printed) in TEXTS {
        for call in 0..7u64 {
            let whole = (refused, printed);
            let wanted = if call < 5 { UNREADABLE } else { whole };
            let told = broken(rt.alloc(), text, call, ErrorKind::Other);
            assert!(rt; told == wanted, "{call}");
            // a call that is interrupted is made again
            let again = broken(rt.alloc(), text, call, ErrorKind::Interrupted);
            assert!(rt; again == whole, "{call}");
        }
    }
    for (text, call) in UNREAD {
        let told = broken(rt.alloc(), text, call, ErrorKind::Other);
        assert!(rt; told == UNREADABLE, "{call}");
    }
}

/// Scripts with a byte that is no text, and the line that is bad for it.
const NO_TEXT: [(&[u8], u64); 3] = [
    (b"store sum 0 8 8 2\xff", 1),
    (b"store sum 0 8 8 2\nenter 0\n\x80", 3),
    (b"store sum 0 8 8 2\nenter 0\nread 0 0 a\xc3", 3),
];

#[test]
fn bytes_that_are_no_text(rt: HostRuntime) {
    one_reading();
    for (text, line) in NO_TEXT {
        let script = read_script(rt.alloc(), &mut CountedReader::new(text), LIMIT);
        assert!(rt; script.err() == Some(Refused::BadScript { line }), "{line}");
    }
}

const BYTES: &[u8] = b"0123456789";

/// Whether ten bytes are written to this end, and these are what the writer took.
fn is_written(
    alloc: Global,
    left: u64,
    kind: Option<ErrorKind>,
    told: Result<(), Refused>,
    taken: &[u8],
) -> bool {
    let mut writer = Filling::once(alloc, 3, left, kind);
    let ended = write_out(&mut CountedWriter::new(&mut writer), BYTES);
    ended == told && writer.text.as_slice() == taken
}

const SCRIPT: &str = "store sum 0 0 8 2
enter 0
do 0 0 rmw a 5
do 0 0 upsert b 1
do 0 0 upsert c 2
do 0 0 rmw d 3
do 0 0 delete b
";

const PRINTED: &str = "entered 0
done value 5
done stored
done stored
done value 3
done deleted
map 3
a 5
c 2
d 3
";

/// Runs a script from memory.
fn run_on<W: Write>(alloc: Global, script: &str, writer: &mut W) -> Result<(), Refused> {
    let mut reader = CountedReader::new(script.as_bytes());
    run_script(alloc, &mut reader, &mut CountedWriter::new(writer))
}

/// Whether a script whose writer fails after so many calls is refused, and the front of the output is written.
fn is_unwritable(alloc: Global, left: u64) -> bool {
    let mut writer = Filling::once(alloc, 3, left, Some(ErrorKind::Other));
    let told = run_on(alloc, SCRIPT, &mut writer);
    told == Err(Refused::Unwritable)
        && writer.text.len() as u64 == 3 * left.min(1000)
        && PRINTED.as_bytes().starts_with(writer.text.as_slice())
}

/// The call that fails, and what the writer took before it: four calls take bytes, and the fifth flushes.
const TAKEN: [(u64, &[u8]); 7] = [
    (0, b""),
    (1, b"012"),
    (2, b"012345"),
    (3, b"012345678"),
    (4, b"0123456789"),
    (5, b"0123456789"),
    (6, b"0123456789"),
];

#[test]
fn a_writer_that_fails(rt: HostRuntime) {
    for (call, taken) in TAKEN {
        let told = if call < 5 {
            Err(Refused::Unwritable)
        } else {
            Ok(())
        };
        let other = Some(ErrorKind::Other);
        assert!(rt; is_written(rt.alloc(), call, other, told, taken), "{call}");
        assert!(rt; is_written(rt.alloc(), call, None, told, taken), "{call}");
        // a call that is interrupted is made again, but for a flush
        let told = if call == 4 {
            Err(Refused::Unwritable)
        } else {
            Ok(())
        };
        let again = Some(ErrorKind::Interrupted);
        assert!(rt; is_written(rt.alloc(), call, again, told, BYTES), "{call}");
    }
    for left in 0..28u64 {
        assert!(rt; is_unwritable(rt.alloc(), left), "{left}");
    }
}

/// What a line prints to which memory was refused; the run goes on.
const REFUSED: &[u8] = b"refused NoMemory";

/// Whether the script prints its text, run again where memory was refused once: to the run, before which nothing was
/// written, or to one of its lines, which tells so.
fn is_run(alloc: Global) -> bool {
    let mut written = Vec::new(alloc);
    let told = match run_on(alloc, SCRIPT, &mut written) {
        Err(Refused::NoMemory) if written.is_empty() => run_on(alloc, SCRIPT, &mut written),
        Ok(()) if written.windows(REFUSED.len()).any(|part| part == REFUSED) => {
            written.clear();
            run_on(alloc, SCRIPT, &mut written)
        }
        told => told,
    };
    // a writer that takes memory may itself be the one that is refused
    match told {
        Err(Refused::Unwritable) => PRINTED.as_bytes().starts_with(written.as_slice()),
        told => told == Ok(()) && written.as_slice() == PRINTED.as_bytes(),
    }
}

/// Run also with each allocation refused in turn, by `rt try --test --fail-alloc N`.
#[test]
fn refused_growths_are_called_again(rt: HostRuntime) {
    assert!(rt; is_run(rt.alloc()));
}

/// What a script of so many lines, each of which is refused, is refused by where it is read five bytes at a time and the
/// call after so many fails, and the number of bytes that it prints.
fn long_run(alloc: Global, lines: u32, calls: u64) -> Option<(Option<Refused>, usize)> {
    let mut text = Vec::new(alloc);
    if text.extend_from_slice(b"store sum 0 8 8 2\n").is_err() {
        return None;
    }
    for _line in 0..lines {
        if text.extend_from_slice(b"enter 7\n").is_err() {
            return None;
        }
    }
    Some(broken(alloc, &text, calls, ErrorKind::Other))
}

/// 12,000 lines are 96,018 bytes, and print 16 bytes each and six more.
#[test]
fn long_streams(rt: HostRuntime) {
    assert!(rt; long_run(rt.alloc(), 12_000, 1_000_000) == Some((None, 192_006)));
    assert!(rt; long_run(rt.alloc(), 12_000, 15_000) == Some(UNREADABLE));
}
