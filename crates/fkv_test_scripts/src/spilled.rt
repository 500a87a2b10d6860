//! Runs whose tables stand in pages of a folder, as rows: their statuses and their texts.
use crate::commands::{BAD_ROW, LETTERS, LETTERS_TOLD, NO_FEED, NO_FOLDER, ends, start};
use fkv_requests::command_lines;

const NO_SPILL_FOLDER: &str = "error: --spill needs a folder for its pages: --dir PATH\n";

const AUDITED_SPILL: &str =
    "error: --spill can't stand with --audit, which keeps every update in memory\n";

/// Command lines, inputs, statuses, what is printed, and what is told beside it; of a mistake its first line.
const SPILLED: [(&str, &str, u8, &str, &str); 11] = [
    // a table in pages of a folder, which has to be named, without histories
    ("fkv_cli sum --spill", "a,1\n", 2, "", NO_SPILL_FOLDER),
    (
        "fkv_cli sum --spill --dir made/pages --workers 2",
        "a,1\n",
        0,
        "a,1\n",
        "",
    ),
    (
        "fkv_cli sum --dir made/pages --audit --spill",
        "a,1\n",
        2,
        "",
        AUDITED_SPILL,
    ),
    (
        "fkv_cli sum --spill --dir made/pages --workers 1 --partition-bits 0 --bucket-bits 0 --page-bits 8 --frames 2",
        LETTERS,
        0,
        LETTERS_TOLD,
        "",
    ),
    (
        "fkv_cli count --spill --merge --dir made/pages --partition-bits 6 --page-bits 8 --frames 2",
        LETTERS,
        0,
        LETTERS_TOLD,
        "",
    ),
    ("fkv_cli max --spill --dir made/pages", "", 0, "", ""),
    (
        "fkv_cli summary --spill --dir made/pages",
        "a,5\nb,7\na,-2\n",
        0,
        "a,2,3,-2,5\nb,1,7,7,7\n",
        "",
    ),
    (
        "fkv_cli sum --spill --dir made/pages",
        "a,5\na,5x\n",
        1,
        "",
        BAD_ROW,
    ),
    (
        "fkv_cli sum --spill --dir /dev/null/pages",
        "a\n",
        1,
        "",
        NO_FOLDER,
    ),
    (
        "fkv_cli sum --spill --dir made/pages no-such-file",
        "a,1\n",
        1,
        "",
        NO_FEED,
    ),
    // the one page of the table is written and read back
    (
        "fkv_cli sum --stats --spill --dir made/pages --partition-bits 0",
        "a,5\nb,7\na,-2\n",
        0,
        "a,3\nb,7\n",
        "fkv_cli: rows 3\nfkv_cli: keys 2\nfkv_cli: records appended 2\nfkv_cli: updates in place 1\nfkv_cli: pages written 1\nfkv_cli: pages read 1\nfkv_cli: bytes on the device 65536\n",
    ),
];

#[test]
fn tables_in_pages(rt: HostRuntime) {
    command_lines();
    for (at, (line, input, status, printed, told)) in SPILLED.iter().enumerate() {
        let start = start(line, input);
        assert!(rt;
            ends(&rt, rt.alloc(), start, *status, printed, told),
            "run {at}"
        );
    }
}
