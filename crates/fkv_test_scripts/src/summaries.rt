//! Tables of summaries: behind each key stand its count, its sum, its least and its greatest amount. What is wanted was computed by
//! a plain model outside the repository.
use crate::commands::{ends, start};
use std::{fs, io};

const FOLDER: &str = "summed";

/// Rows of twelve keys, of which some come in both feeds: small amounts and large ones of either sign.
const FIRST: &str =
    "k0,-348573928283\nk3,-828087012645\nk6,-808807496484\nk9,13\nk0,30024638855886185\nk10,41\nk11,0\nk9,69\nk10,590307734061\nk0,-140538939234611114\nk3,3075102774560631332\nk11,0\nk10,102677391882936771\nk5,0\nk0,140257930640\nk2,5401797811754797814\nk7,7863140120470357837\nk9,0\nk7,-22\nk2,0\nk6,2768594715468680196\nk7,0\nk0,-295780189911437146\nk9,-8562192502471293358\n";

const SECOND: &str =
    "k3,985363798896\nk8,742492185305\nk6,694794587014\nk8,7793620796637005712\nk1,82\nk10,0\nk5,558182797801\nk11,-210797507440\nk0,-39\nk3,10\nk1,0\nk7,873202881305\nk8,0\nk8,0\nk3,0\nk6,-2479232680129326348\nk6,0\nk2,0\nk7,96\nk2,692350691212\nk11,83\nk6,95\nk6,0\nk3,96\n";

const FIRST_TOLD: &str =
    "k0,5,-406294698606159718,-295780189911437146,30024638855886185\nk10,3,102677982190670873,41,102677391882936771\nk11,2,0,0,0\nk2,2,5401797811754797814,0,5401797811754797814\nk3,2,3075101946473618687,-828087012645,3075102774560631332\nk5,1,0,0,0\nk6,2,2768593906661183712,-808807496484,2768594715468680196\nk7,3,7863140120470357815,-22,7863140120470357837\nk9,4,-8562192502471293276,-8562192502471293358,69\n";

const BOTH_TOLD: &str =
    "k0,6,-406294698606159757,-295780189911437146,30024638855886185\nk1,2,82,0,82\nk10,4,102677982190670873,0,102677391882936771\nk11,4,-210797507357,-210797507440,83\nk2,4,5401798504105489026,0,5401797811754797814\nk3,6,3075102931837417689,-828087012645,3075102774560631332\nk5,2,558182797801,0,558182797801\nk6,7,289361921326444473,-2479232680129326348,2768594715468680196\nk7,5,7863140993673239216,-22,7863140120470357837\nk8,4,7793621539129191017,0,7793620796637005712\nk9,4,-8562192502471293276,-8562192502471293358,69\n";

/// More keys than two frames of 256 bytes hold, and the first of them again. Records of summaries take 80 bytes: two stand on
/// page 0, three on each of the next pages.
const LETTERS: &str =
    "a,1\nb,1\nc,1\nd,1\ne,1\nf,1\ng,1\nh,1\ni,1\nj,1\nk,1\nl,1\nm,1\nn,1\no,1\np,1\nq,1\nr,1\ns,1\nt,1\na,1\n";

const LETTERS_TOLD: &str =
    "a,2,2,1,1\nb,1,1,1,1\nc,1,1,1,1\nd,1,1,1,1\ne,1,1,1,1\nf,1,1,1,1\ng,1,1,1,1\nh,1,1,1,1\ni,1,1,1,1\nj,1,1,1,1\nk,1,1,1,1\nl,1,1,1,1\nm,1,1,1,1\nn,1,1,1,1\no,1,1,1,1\np,1,1,1,1\nq,1,1,1,1\nr,1,1,1,1\ns,1,1,1,1\nt,1,1,1,1\n";

/// The least and the greatest amounts: each by the other, and twice.
const ENDS: &str =
    "a,-9223372036854775808\na,9223372036854775807\nb,9223372036854775807\nb,9223372036854775807\nc,-9223372036854775808\nc,-9223372036854775808\n";

const ENDS_TOLD: &str =
    "a,2,-1,-9223372036854775808,9223372036854775807\nb,2,18446744073709551614,9223372036854775807,9223372036854775807\nc,2,-18446744073709551616,-9223372036854775808,-9223372036854775808\n";

/// The rows of `examples/orders.csv`, and `examples/orders.summary.out`.
const ORDERS: &str = "apples,3\npears,2\napples,4\nplums,10\npears,-1\n";

const ORDERS_TOLD: &str = "apples,2,7,3,4\npears,2,1,-1,2\nplums,1,10,10,10\n";

/// What stands in `summed/a`, which standard input has too, and in `summed/b`; the words of a run, what it prints, and what its report
/// begins with.
const RUNS: [(&str, &str, &str, &str, &str); 20] = [
    (ORDERS, "", "fkv_cli summary", ORDERS_TOLD, ""),
    ("", "", "fkv_cli summary", "", ""),
    (ENDS, "", "fkv_cli summary", ENDS_TOLD, ""),
    (
        ENDS,
        "",
        "fkv_cli summary --merge --partition-bits 0 --page-bits 8 --frames 2",
        ENDS_TOLD,
        "",
    ),
    (
        ENDS,
        ENDS,
        "fkv_cli summary --workers 2 --audit summed/a summed/b",
        "a,4,-2,-9223372036854775808,9223372036854775807\nb,4,36893488147419103228,9223372036854775807,9223372036854775807\nc,4,-36893488147419103232,-9223372036854775808,-9223372036854775808\n",
        "",
    ),
    // one feed and two, by one worker and by several
    (FIRST, SECOND, "fkv_cli summary", FIRST_TOLD, ""),
    (
        FIRST,
        SECOND,
        "fkv_cli summary summed/a summed/b",
        BOTH_TOLD,
        "",
    ),
    (
        FIRST,
        SECOND,
        "fkv_cli summary --audit summed/a summed/b",
        BOTH_TOLD,
        "",
    ),
    (
        FIRST,
        SECOND,
        "fkv_cli summary --workers 2 summed/b summed/a",
        BOTH_TOLD,
        "",
    ),
    (
        FIRST,
        SECOND,
        "fkv_cli summary --workers 2 --audit summed/a summed/b",
        BOTH_TOLD,
        "",
    ),
    (
        FIRST,
        SECOND,
        "fkv_cli summary --workers 2 --audit --merge --partition-bits 0 --page-bits 8 --frames 2 summed/a summed/b",
        BOTH_TOLD,
        "",
    ),
    // pages that leave memory
    (
        FIRST,
        SECOND,
        "fkv_cli summary --memory 1K summed/a summed/b",
        BOTH_TOLD,
        "",
    ),
    (
        FIRST,
        SECOND,
        "fkv_cli summary --merge --partition-bits 0 --page-bits 8 --frames 2 summed/a summed/b",
        BOTH_TOLD,
        "",
    ),
    (
        FIRST,
        SECOND,
        "fkv_cli summary --dir summed/pages --partition-bits 0 --page-bits 8 --frames 2 summed/a summed/b",
        BOTH_TOLD,
        "",
    ),
    (
        FIRST,
        SECOND,
        "fkv_cli summary --dir summed/pages --merge --partition-bits 0 --page-bits 8 --frames 2 summed/a summed/b",
        BOTH_TOLD,
        "",
    ),
    (
        FIRST,
        SECOND,
        "fkv_cli summary --dir summed/pages --workers 2 --audit --partition-bits 0 --page-bits 8 --frames 2 summed/a summed/b",
        BOTH_TOLD,
        "",
    ),
    // seven pages are in frames
    (
        LETTERS,
        "",
        "fkv_cli summary --stats --partition-bits 0 --page-bits 8 --frames 8",
        LETTERS_TOLD,
        "fkv_cli: rows 21\nfkv_cli: keys 20\nfkv_cli: records appended 20\nfkv_cli: updates in place 1\nfkv_cli: pages written 0\nfkv_cli: pages read 0\nfkv_cli: bytes on the device 0\nfkv_cli: seconds ",
    ),
    // pages 2, 4 and 6 wait for a frame, and the pages below them leave; the second row of `a` reads page 0
    (
        LETTERS,
        "",
        "fkv_cli summary --stats --partition-bits 0 --page-bits 8 --frames 2",
        LETTERS_TOLD,
        "fkv_cli: rows 21\nfkv_cli: keys 20\nfkv_cli: records appended 21\nfkv_cli: updates in place 0\nfkv_cli: pages written 6\nfkv_cli: pages read 7\nfkv_cli: bytes on the device 1536\nfkv_cli: seconds ",
    ),
    // a merge reads no page
    (
        LETTERS,
        "",
        "fkv_cli summary --stats --partition-bits 0 --page-bits 8 --frames 2 --merge",
        LETTERS_TOLD,
        "fkv_cli: rows 21\nfkv_cli: keys 20\nfkv_cli: records appended 21\nfkv_cli: updates in place 0\nfkv_cli: pages written 6\nfkv_cli: pages read 6\nfkv_cli: bytes on the device 1536\nfkv_cli: seconds ",
    ),
    (ORDERS, "", "fkv_cli summary --progress", ORDERS_TOLD, ""),
];

#[test]
fn summaries(rt: HostRuntime) -> io::Result<()> {
    fs::create_dir_all(&rt, FOLDER)?;
    for (at, (first, second, line, printed, report)) in RUNS.iter().enumerate() {
        fs::write(&rt, "summed/a", *first)?;
        fs::write(&rt, "summed/b", *second)?;
        let run = start(line, first);
        assert!(rt; ends(&rt, rt.alloc(), run, 0, printed, report), "run {at}");
    }
    fs::remove_dir_all(&rt, FOLDER)?;
    Ok(())
}
