//! What is told beside a refusal, of files and folders that stand as they do when it is looked at.
use crate::commands::split;
use fkv_commands::causes::tell_cause;
use fkv_functions::{Refused, What};
use fkv_requests::{Request, request_of};
use fkv_streams::CountedWriter;
use std::alloc::Global;
use std::fs::{self, Files};
use std::io;
use std::os::unix::fs::PermissionsExt;

/// The words of a table, a refusal of it, and what is told beside that. `causes/a` has the rows `a,1` and `b,2`.
const CAUSES: [(&str, Refused, &str); 19] = [
    (
        "fkv_cli sum",
        Refused::NoMemory,
        "fkv_cli: --memory 64M limits buckets and frames, and --dir keeps pages out of memory\n",
    ),
    ("fkv_cli sum", Refused::Stalled, ""),
    (
        "fkv_cli sum",
        Refused::Stranger {
            what: What::Page,
            held: 2,
            came: 0,
        },
        "",
    ),
    // pages in memory have no folder
    ("fkv_cli sum", Refused::Damaged { page: 3 }, ""),
    ("fkv_cli sum", Refused::Device { code: 2, page: 3 }, ""),
    (
        "fkv_cli sum",
        Refused::Unreadable { number: 1 },
        "fkv_cli: feed 1 is standard input\n",
    ),
    (
        "fkv_cli sum causes/a -",
        Refused::Unreadable { number: 2 },
        "fkv_cli: feed 2 is standard input\n",
    ),
    (
        "fkv_cli sum - causes/a",
        Refused::BadRow { feed: 1, row: 2 },
        "fkv_cli: standard input, row 2\n",
    ),
    // what can be read by now
    (
        "fkv_cli sum - causes/a",
        Refused::Unreadable { number: 2 },
        "fkv_cli: feed 2 is 'causes/a'\n",
    ),
    (
        "fkv_cli sum causes/a",
        Refused::BadRow { feed: 1, row: 2 },
        "fkv_cli: 'causes/a', row 2\n",
    ),
    (
        "fkv_cli sum causes/a",
        Refused::BadRow { feed: 1, row: 3 },
        "fkv_cli: 'causes/a', row 3\n",
    ),
    // a file that is no regular one is not read again
    (
        "fkv_cli sum /dev/null",
        Refused::BadRow { feed: 1, row: 1 },
        "fkv_cli: '/dev/null', row 1\n",
    ),
    (
        "fkv_cli sum /dev/null",
        Refused::Unreadable { number: 1 },
        "fkv_cli: feed 1 is '/dev/null'\n",
    ),
    (
        "fkv_cli sum /dev/null/none",
        Refused::Unreadable { number: 1 },
        "fkv_cli: feed 1 is '/dev/null/none': Not a directory (os error 20)\n",
    ),
    (
        "fkv_cli sum causes/\x1b\\\n",
        Refused::Unreadable { number: 1 },
        "fkv_cli: feed 1 is 'causes/\\x1b\\\\\\n': no such file\n",
    ),
    // a folder that can be made by now, and written
    (
        "fkv_cli sum --dir causes/pages --partition-bits 6",
        Refused::Device { code: 1, page: 0 },
        "fkv_cli: the folder 'causes/pages' can't be made or written\n",
    ),
    (
        "fkv_cli sum --dir causes/pages --partition-bits 6 --page-bits 8",
        Refused::Device { code: 2, page: 5 },
        "fkv_cli: page 5 of the folder 'causes/pages'\n",
    ),
    (
        "fkv_cli sum --dir causes/none",
        Refused::Device { code: 2, page: 5 },
        "fkv_cli: page 5 of the folder 'causes/none': no such file\n",
    ),
    (
        "fkv_cli sum --dir causes/pages",
        Refused::Device { code: 3, page: 5 },
        "fkv_cli: the folder 'causes/pages' was changed while the run went on; is another run using it?\n",
    ),
];

/// Whether this is told beside a refusal of the table that these words ask for.
fn is_told<H: Files>(files: &H, alloc: Global, line: &str, refused: Refused, text: &str) -> bool {
    let Ok(words) = split(alloc, line) else {
        return false;
    };
    let Ok(Request::Table(table)) = request_of(alloc, words.as_slice()) else {
        return false;
    };
    let mut told = Vec::new(alloc);
    let mut faults = CountedWriter::new(&mut told);
    tell_cause(files, alloc, &table, refused, &mut faults);
    told.as_slice() == text.as_bytes()
}

#[test]
fn causes_of_refusals(rt: HostRuntime) -> io::Result<()> {
    fs::create_dir_all(&rt, "causes")?;
    fs::write(&rt, "causes/a", "a,1\nb,2\n")?;
    for (at, (line, refused, text)) in CAUSES.iter().enumerate() {
        assert!(rt; is_told(&rt, rt.alloc(), line, *refused, text), "row {at}");
    }
    fs::remove_dir_all(&rt, "causes")?;
    Ok(())
}

/// As root every file can be read, so there this shows nothing.
#[test]
fn a_feed_that_is_shut(rt: HostRuntime) -> io::Result<()> {
    fs::create_dir_all(&rt, "shut")?;
    fs::write(&rt, "shut/a", "a,1\n")?;
    let mut mode = fs::metadata(&rt, "shut/a")?.permissions();
    mode.set_mode(0);
    fs::set_permissions(&rt, "shut/a", mode)?;
    if fs::open(&rt, "shut/a").is_err() {
        let refused = Refused::Unreadable { number: 1 };
        let text = "fkv_cli: feed 1 is 'shut/a': no permission\n";
        assert!(rt; is_told(&rt, rt.alloc(), "fkv_cli sum shut/a", refused, text));
    }
    fs::remove_dir_all(&rt, "shut")?;
    Ok(())
}
