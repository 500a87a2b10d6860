//! Whole runs whose streams fail: an input that ends at each of its calls in turn, and an output that has room for a front.
use crate::commands::{HELP, Launch, PIECE, THIN_PATH, THIN_PATH_TOLD, ends, start};
use fkv_device::PageFile;
use std::alloc::Global;
use std::fs::Files;
use std::rt::Clock;
use std::sync::Wait;
use std::thread::Threads;

/// Command lines whose runs read the input to its end, that input, and what they print.
const READ: [(&str, &str, &str); 3] = [
    ("fkv_cli", THIN_PATH, THIN_PATH_TOLD),
    (
        "fkv_cli sum --partition-bits 0 --bucket-bits 0 --page-bits 8 --frames 2",
        "a,5\nb,7\na,-2\nc,1\n",
        "a,3\nb,7\nc,1\n",
    ),
    // a reader that is read whole before the run begins
    (
        "fkv_cli sum --audit",
        "a,5\nb,7\na,-2\nc,1\n",
        "a,3\nb,7\nc,1\n",
    ),
];

/// What a run prints of help whose output is full after so many bytes.
const FULL: [(&str, usize, &str); 4] = [
    ("fkv_cli --help", 0, ""),
    ("fkv_cli --help", 1, "A"),
    ("fkv_cli --help", 9, "A proved "),
    (
        "fkv_cli -h",
        42,
        "A proved key-value store for per-key state",
    ),
];

/// More calls than give any of these inputs.
const CALLS: u64 = 1_000;

/// The calls before the first one by whose failure a run ends as it may not: each call that gives the input fails in turn,
/// until a run makes no more calls. Where one fails nothing is printed. That run is the other one, too, where there were too
/// few calls for all bytes and their end.
fn first_unread<H: Files + Threads + Wait + Clock + Sync>(
    rt: &H,
    alloc: Global,
    line: &str,
    input: &str,
    printed: &str,
) -> Option<u64>
where
    H::File: PageFile + Send,
    H::Dir: Send,
{
    let least = input.len().div_ceil(PIECE) as u64 + 1;
    let unreadable = if line == "fkv_cli" {
        "fkv_cli: cannot read input 1\n"
    } else {
        "fkv_cli: cannot read input 1\nfkv_cli: feed 1 is standard input\n"
    };
    for calls in 0..CALLS {
        let start = Launch {
            calls,
            ..start(line, input)
        };
        if ends(rt, alloc, start, 1, "", unreadable) {
            continue;
        }
        let is_whole = calls >= least && ends(rt, alloc, start, 0, printed, "");
        return if is_whole { None } else { Some(calls) };
    }
    Some(CALLS)
}

/// The room of the first output by which a run ends as it may not: each room up to that for all that is printed. Where it is
/// less, as many bytes of the front are printed.
fn first_unwritten<H: Files + Threads + Wait + Clock + Sync>(
    rt: &H,
    alloc: Global,
    line: &str,
    input: &str,
    printed: &str,
) -> Option<usize>
where
    H::File: PageFile + Send,
    H::Dir: Send,
{
    let unwritable = "fkv_cli: cannot write output\n";
    (0..=printed.len()).find(|room| {
        let (status, told) = if *room < printed.len() {
            (1, unwritable)
        } else {
            (0, "")
        };
        let start = Launch {
            room: *room,
            ..start(line, input)
        };
        match printed.get(..*room) {
            Some(front) => !ends(rt, alloc, start, status, front, told),
            None => true,
        }
    })
}

/// Runs whose output has room for all, and runs whose fault can not be told whole: they end with their status.
const ENDED: [(Launch<'_>, u8, &str, &str); 6] = [
    // what is wrong with the input is told, not that the output is full
    (
        Launch {
            line: "fkv_cli",
            input: "store sum 0 8 7 2\n",
            piece: PIECE,
            calls: 100,
            room: 0,
            beside: 100,
        },
        1,
        "",
        "fkv_cli: bad configuration\n",
    ),
    (
        Launch {
            line: "fkv_cli sum",
            input: "a\n",
            piece: PIECE,
            calls: 100,
            room: 0,
            beside: 200,
        },
        1,
        "",
        "fkv_cli: bad row 1 of feed 1\nfkv_cli: standard input, row 1\nfkv_cli: a feed has no header; each line is KEY,AMOUNT\n",
    ),
    (
        Launch {
            line: "fkv_cli",
            input: THIN_PATH,
            piece: PIECE,
            calls: 12,
            room: 59,
            beside: 0,
        },
        0,
        THIN_PATH_TOLD,
        "",
    ),
    (
        Launch {
            line: "fkv_cli --help",
            input: "",
            piece: PIECE,
            calls: 0,
            room: 581,
            beside: 0,
        },
        0,
        HELP,
        "",
    ),
    (
        Launch {
            line: "fkv_cli",
            input: "",
            piece: PIECE,
            calls: 12,
            room: 0,
            beside: 4,
        },
        1,
        "",
        "fkv_",
    ),
    (
        Launch {
            line: "fkv_cli reply",
            input: "",
            piece: PIECE,
            calls: 0,
            room: 0,
            beside: 4,
        },
        2,
        "",
        "erro",
    ),
];

#[test]
fn streams_that_fail(rt: HostRuntime) {
    for (line, input, printed) in READ {
        let unread = first_unread(&rt, rt.alloc(), line, input, printed);
        assert!(rt; unread == None, "{line}: call {unread:?}");
        let unwritten = first_unwritten(&rt, rt.alloc(), line, input, printed);
        assert!(rt; unwritten == None, "{line}: room {unwritten:?}");
    }
    let unwritten = first_unwritten(&rt, rt.alloc(), "fkv_cli -V", "", "fkv_cli 0.1.0\n");
    assert!(rt; unwritten == None, "room {unwritten:?}");
    for (line, room, printed) in FULL {
        let start = Launch {
            room,
            ..start(line, "")
        };
        let told = "fkv_cli: cannot write output\n";
        assert!(rt;
            ends(&rt, rt.alloc(), start, 1, printed, told),
            "{line} {room}"
        );
    }
    for (at, (start, status, printed, told)) in ENDED.iter().enumerate() {
        assert!(rt;
            ends(&rt, rt.alloc(), *start, *status, printed, told),
            "end {at}"
        );
    }
}
