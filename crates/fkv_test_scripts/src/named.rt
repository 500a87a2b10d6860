//! Feeds that are named on the command line: which are read, and in which order.
use crate::commands::{ends, start};
use std::{fs, io};

const FOLDER: &str = "named_feeds";

/// What stands in `named_feeds/a` and `named_feeds/b`, the words of a run over them, its status, and what it prints and
/// tells. Standard input has a row of its own, which no run reads that names a feed.
const NAMED: [(&str, &str, &str, u8, &str, &str); 31] = [
    (
        "a,1\nb,2\n",
        "a,5\nc,7\n",
        "fkv_cli sum named_feeds/a named_feeds/b",
        0,
        "a,6\nb,2\nc,7\n",
        "",
    ),
    // a path that is named again is read again, beside itself too
    (
        "a,1\nb,2\n",
        "a,5\n",
        "fkv_cli sum named_feeds/a named_feeds/a named_feeds/b",
        0,
        "a,7\nb,4\n",
        "",
    ),
    (
        "a,1\nb,2\n",
        "a,5\n",
        "fkv_cli sum named_feeds/a named_feeds/b named_feeds/a named_feeds/b named_feeds/b",
        0,
        "a,17\nb,4\n",
        "",
    ),
    (
        "a,1\nb,2\n",
        "a,5\n",
        "fkv_cli sum --workers 3 named_feeds/a named_feeds/a named_feeds/b named_feeds/b",
        0,
        "a,12\nb,4\n",
        "",
    ),
    // one worker counts the records that it appends; several do not, nor does one that keeps histories
    (
        "a,1\nb,2\n",
        "a,5\n",
        "fkv_cli sum --stats named_feeds/a named_feeds/b",
        0,
        "a,6\nb,2\n",
        "fkv_cli: rows 3\nfkv_cli: keys 2\nfkv_cli: records appended 2\nfkv_cli: updates in place 1\nfkv_cli: pages written 0\n",
    ),
    (
        "a,1\nb,2\n",
        "a,5\n",
        "fkv_cli sum --stats --workers 2 named_feeds/a named_feeds/b",
        0,
        "a,6\nb,2\n",
        "fkv_cli: rows 3\nfkv_cli: keys 2\nfkv_cli: pages written 0\n",
    ),
    (
        "a,1\nb,2\n",
        "a,5\n",
        "fkv_cli sum --stats --audit named_feeds/a named_feeds/b",
        0,
        "a,6\nb,2\n",
        "fkv_cli: rows 3\nfkv_cli: keys 2\nfkv_cli: pages written 0\n",
    ),
    (
        "a,1\nb,2\n",
        "",
        "fkv_cli sum --stats --audit named_feeds/a",
        0,
        "a,1\nb,2\n",
        "fkv_cli: rows 2\nfkv_cli: keys 2\nfkv_cli: pages written 0\n",
    ),
    // the feed after the third
    (
        "a,1\n",
        "x\n",
        "fkv_cli sum named_feeds/a named_feeds/a named_feeds/a named_feeds/b",
        1,
        "",
        "fkv_cli: bad row 1 of feed 4\nfkv_cli: 'named_feeds/b', line 1: \"x\"\n",
    ),
    (
        "a,1\n",
        "a,2\n",
        "fkv_cli count named_feeds/b",
        0,
        "a,1\n",
        "",
    ),
    (
        "a,1\n",
        "a,2\n",
        "fkv_cli max named_feeds/a named_feeds/b named_feeds/a",
        0,
        "a,2\n",
        "",
    ),
    (
        "a,1\n",
        "a,2\nx\n",
        "fkv_cli sum named_feeds/a named_feeds/b",
        1,
        "",
        "fkv_cli: bad row 2 of feed 2\nfkv_cli: 'named_feeds/b', line 2: \"x\"\n",
    ),
    (
        "x\n",
        "a,1\ny\n",
        "fkv_cli sum named_feeds/a named_feeds/b",
        1,
        "",
        "fkv_cli: bad row 1 of feed 1\nfkv_cli: 'named_feeds/a', line 1: \"x\"\n",
    ),
    (
        "x\n",
        "a,1\ny\n",
        "fkv_cli sum named_feeds/b named_feeds/a",
        1,
        "",
        "fkv_cli: bad row 2 of feed 1\nfkv_cli: 'named_feeds/b', line 2: \"y\"\n",
    ),
    // all feeds are opened before a row is read
    (
        "x\n",
        "",
        "fkv_cli sum named_feeds/a named_feeds/none",
        1,
        "",
        "fkv_cli: cannot read input 2\nfkv_cli: feed 2 is 'named_feeds/none': no such file\n",
    ),
    // a path is taken as it stands
    (
        "a,1\n",
        "",
        "fkv_cli sum named_feeds/a\t",
        1,
        "",
        "fkv_cli: cannot read input 1\nfkv_cli: feed 1 is 'named_feeds/a\\x09': no such file\n",
    ),
    ("", "", "fkv_cli sum named_feeds/a named_feeds/b", 0, "", ""),
    (
        "a,1\n",
        "",
        "fkv_cli sum named_feeds",
        1,
        "",
        "fkv_cli: cannot read input 1\nfkv_cli: feed 1 is 'named_feeds': it is a folder\n",
    ),
    // two workers, each with a feed of its own
    (
        "a,1\nb,2\n",
        "a,5\nc,7\n",
        "fkv_cli sum --workers 2 named_feeds/a named_feeds/b",
        0,
        "a,6\nb,2\nc,7\n",
        "",
    ),
    (
        "a,1\nb,2\n",
        "a,5\nc,7\n",
        "fkv_cli sum --workers 2 --audit named_feeds/a named_feeds/b",
        0,
        "a,6\nb,2\nc,7\n",
        "",
    ),
    (
        "a,1\nb,2\n",
        "a,5\nc,7\n",
        "fkv_cli count --workers 14 --dir named_feeds/pages named_feeds/a named_feeds/b named_feeds/a",
        0,
        "a,3\nb,2\nc,1\n",
        "",
    ),
    // the first worker's fault comes first, and standard input is not read
    (
        "a,1\nx\n",
        "y\n",
        "fkv_cli sum --workers 2 named_feeds/a named_feeds/b",
        1,
        "",
        "fkv_cli: bad row 2 of feed 1\nfkv_cli: 'named_feeds/a', line 2: \"x\"\n",
    ),
    (
        "a,1\n",
        "a,2\nb,1\ny\n",
        "fkv_cli sum --workers 2 --audit named_feeds/a named_feeds/b",
        1,
        "",
        "fkv_cli: bad row 3 of feed 2\nfkv_cli: 'named_feeds/b', line 3: \"y\"\n",
    ),
    (
        "x\n",
        "",
        "fkv_cli sum --workers 2 named_feeds/a named_feeds/none",
        1,
        "",
        "fkv_cli: cannot read input 2\nfkv_cli: feed 2 is 'named_feeds/none': no such file\n",
    ),
    (
        "a,1\n",
        "",
        "fkv_cli sum --workers 2 named_feeds/a named_feeds",
        1,
        "",
        "fkv_cli: cannot read input 2\nfkv_cli: feed 2 is 'named_feeds': it is a folder\n",
    ),
    // standard input, which these runs do not lend
    (
        "a,1\n",
        "",
        "fkv_cli sum named_feeds/a -",
        1,
        "",
        "fkv_cli: cannot read input 2\nfkv_cli: feed 2 is standard input\n",
    ),
    // a bad row by its line and its bytes: behind a line break in quotes, behind empty lines, with bytes that no terminal is shown,
    // and one that is shown in part
    (
        "\"a\nb\",1\r\n\r\nc;2\r\nd,3\r\n",
        "",
        "fkv_cli sum named_feeds/a",
        1,
        "",
        "fkv_cli: bad row 2 of feed 1\nfkv_cli: 'named_feeds/a', line 4: \"c;2\"\n",
    ),
    (
        "a,1\n\"b\n\x1b[2J\\\",2,3\n",
        "",
        "fkv_cli sum named_feeds/a",
        1,
        "",
        "fkv_cli: bad row 2 of feed 1\nfkv_cli: 'named_feeds/a', line 2: \"\"b\\n\\x1b[2J\\\\\",2,3\"\n",
    ),
    (
        "a,1\nabcdefghijklmnopqrstuvwxyzabcdefghijklmnopqrstuvwxyz01234567,1",
        "",
        "fkv_cli sum named_feeds/a",
        1,
        "",
        "fkv_cli: bad row 2 of feed 1\nfkv_cli: 'named_feeds/a', line 2: \"abcdefghijklmnopqrstuvwxyzabcdefghijklmnopqrstuvwxyz01234567...\"\n",
    ),
    // bytes above 127, of which the first two are a terminal's control
    (
        "a,1\n\u{9b}2J\u{e9}\n",
        "",
        "fkv_cli sum named_feeds/a",
        1,
        "",
        "fkv_cli: bad row 2 of feed 1\nfkv_cli: 'named_feeds/a', line 2: \"\\xc2\\x9b2J\\xc3\\xa9\"\n",
    ),
    // a header
    (
        "key,amount\na,1\n",
        "",
        "fkv_cli sum named_feeds/a",
        1,
        "",
        "fkv_cli: bad row 1 of feed 1\nfkv_cli: 'named_feeds/a', line 1: \"key,amount\"\nfkv_cli: a feed has no header; each line is KEY,AMOUNT\n",
    ),
];

#[test]
fn named_feeds(rt: HostRuntime) -> io::Result<()> {
    fs::create_dir_all(&rt, FOLDER)?;
    for (at, (first, second, line, status, printed, told)) in NAMED.iter().enumerate() {
        fs::write(&rt, "named_feeds/a", *first)?;
        fs::write(&rt, "named_feeds/b", *second)?;
        let run = start(line, "z,9\n");
        assert!(rt;
            ends(&rt, rt.alloc(), run, *status, printed, told),
            "run {at}"
        );
    }
    fs::remove_dir_all(&rt, FOLDER)?;
    Ok(())
}
