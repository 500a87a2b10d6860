//! Refused growths: parts whose lines are called again where memory is refused once. Run also with each allocation
//! refused in turn, by `bench/refuse_growths`: what was refused is answered when it is called again, and the map is whole.
use crate::folds::Fold;
use crate::letters::is_map;
use fkv_functions::{Refused, SumFns};
use fkv_test_world_lines::{Call, driven, part_of};
use fkv_worlds::{End, ReportOf, replay};
use std::alloc::Global;

/// A part, the lines that its calls print, how many lives it leaves, and its map.
#[derive(Drop)]
struct Growth {
    part: &'static str,
    told: &'static str,
    lives: usize,
    map: &'static [(u8, i128)],
}

/// Four keys of one class, whose records take two pages.
const ONE_CLASS: Growth = Growth {
    part: "store sum 0 0 8 2
enter 0
rmw 0 0 a 5
go 0 0 0
go 0 0 0
go 0 0 0
install 0 0 0
upsert 0 0 b 1
go 0 0 0
upsert 0 0 c 2
go 0 0 0
upsert 0 0 d 3
go 0 0 0
delete 0 0 b
go 0 0 0
",
    told: "entered 0
issued 0
next
next
build none
done value 5
issued 0
done stored
issued 0
done stored
issued 0
done stored
issued 0
done deleted
",
    lives: 5,
    map: &[(b'a', 5), (b'c', 2), (b'd', 3)],
};

/// Two updates are prepared from one page of the device.
const TWO_UPDATES_OF_AN_EVICTED_KEY: Growth = Growth {
    part: "store sum 0 8 8 2
enter 0
enter 0
upsert 0 0 a 10
go 0 0 0
go 0 0 0
go 0 0 0
upsert 0 0 b 1
go 0 0 0
go 0 0 0
go 0 0 0
upsert 0 0 c 1
go 0 0 0
go 0 0 0
go 0 0 0
readonly 0 1
refresh 0 0
refresh 0 1
take 0
write 0 ok
head 0 1
refresh 0 0
refresh 0 1
rmw 0 0 a 5
go 0 0 0
load 0 0 0 ok
rmw 0 1 a 1
go 0 1 0
load 0 1 0 ok
install 0 1 0
install 0 0 0
go 0 0 0
",
    told: "entered 0
entered 1
issued 0
next
next
done stored
issued 0
next
next
done stored
issued 0
next
next
done stored
shifted
refreshed
refreshed
taken 0
flushed 0
shifted
refreshed
refreshed
issued 0
load 64
build 10
issued 0
load 64
build 10
done value 11
next
done value 16
",
    lives: 5,
    map: &[(b'a', 16), (b'b', 1), (b'c', 1)],
};

/// A read waits for a page while another session clears it and the log's start is cut.
const TRUNCATION_UNDER_A_PENDING_READ: Growth = Growth {
    part: "store sum 0 8 8 2
enter 0
enter 0
upsert 0 0 a 10
go 0 0 0
go 0 0 0
go 0 0 0
upsert 0 0 b 1
go 0 0 0
go 0 0 0
go 0 0 0
upsert 0 0 c 1
go 0 0 0
go 0 0 0
go 0 0 0
readonly 0 1
refresh 0 0
refresh 0 1
take 0
write 0 ok
head 0 1
refresh 0 0
refresh 0 1
read 0 0 a
go 0 0 0
truncate 0
relocate 0 1
go 0 1 0
go 0 1 0
load 0 1 0 ok
go 0 1 0
relocate 0 1
go 0 1 0
load 0 1 0 ok
truncate 0
relocate 0 1
go 0 1 0
load 0 1 0 ok
relocate 0 1
truncate 0
truncate 0
load 0 0 0 ok
go 0 0 0
leave 0 1
",
    told: "entered 0
entered 1
issued 0
next
next
done stored
issued 0
next
next
done stored
issued 0
next
next
done stored
shifted
refreshed
refreshed
taken 0
flushed 0
shifted
refreshed
refreshed
issued 0
load 64
refused NotDue
issued 0
load 64
refused NotReady
done cleared
refused Unknown
issued 0
load 120
done cleared
refused NotDue
issued 0
load 176
done cleared
refused NotDue
begin 256
refused NotDue
next
done value 10
left
",
    lives: 7,
    map: &[(b'a', 10), (b'b', 1), (b'c', 1)],
};

/// Operations on keys of one class over three pages.
const THREE_PAGES: Growth = Growth {
    part: "store sum 0 0 8 8
enter 0
rmw 0 0 a 5
go 0 0 0
go 0 0 0
go 0 0 0
install 0 0 0
rmw 0 0 a -2
go 0 0 0
upsert 0 0 b 1
go 0 0 0
upsert 0 0 c 2
go 0 0 0
delete 0 0 b
go 0 0 0
upsert 0 0 d 3
go 0 0 0
rmw 0 0 d 4
go 0 0 0
upsert 0 0 e 4
go 0 0 0
delete 0 0 e
go 0 0 0
rmw 0 0 f 6
go 0 0 0
install 0 0 0
delete 0 0 f
go 0 0 0
read 0 0 f
go 0 0 0
",
    told: "entered 0
issued 0
next
next
build none
done value 5
issued 0
done value 3
issued 0
done stored
issued 0
done stored
issued 0
done deleted
issued 0
done stored
issued 0
done value 7
issued 0
done stored
issued 0
done deleted
issued 0
build none
done value 6
issued 0
done deleted
issued 0
done absent
",
    lives: 12,
    map: &[(b'a', 3), (b'c', 2), (b'd', 7)],
};

const GROWTHS: [Growth; 4] = [
    ONE_CLASS,
    TWO_UPDATES_OF_AN_EVICTED_KEY,
    TRUNCATION_UNDER_A_PENDING_READ,
    THREE_PAGES,
];

/// The lines that a part prints, and its report.
fn run(alloc: Global, part: &str) -> Result<(Vec<u8>, ReportOf<SumFns>), Refused> {
    let part = part_of(alloc, part)?;
    driven(alloc, &part)
}

/// What a part prints and reports, begun anew where memory is refused to what reads or prints it, or makes its world.
fn run_again(alloc: Global, part: &str) -> Result<(Vec<u8>, ReportOf<SumFns>), Refused> {
    match run(alloc, part) {
        Err(Refused::NoMemory) => run(alloc, part),
        done => done,
    }
}

/// Whether a part prints its lines, and leaves so many lives and its map.
fn is_grown(alloc: Global, growth: &Growth) -> bool {
    match run_again(alloc, growth.part) {
        Ok((text, report)) => {
            text.as_slice() == growth.told.as_bytes()
                && report.lives.len() == growth.lives
                && is_map(report.map.as_slice(), growth.map)
        }
        Err(_) => false,
    }
}

#[test]
fn refused_growths_are_called_again(rt: HostRuntime) {
    for (at, growth) in GROWTHS.iter().enumerate() {
        assert!(rt; is_grown(rt.alloc(), growth), "part {at}");
    }
}

/// The report of a replay of a part, each call of which is one step.
fn replayed(alloc: Global, part: &str) -> Result<ReportOf<SumFns>, Refused> {
    let part = part_of(alloc, part)?;
    let mut steps = Vec::new(alloc);
    for call in &part.calls {
        let Call::Step(step) = call else {
            return Err(Refused::Unknown);
        };
        if steps.push(*step).is_err() {
            return Err(Refused::NoMemory);
        }
    }
    replay(alloc, &part.config, &SumFns, &steps)
}

/// Whether the finished lives of a report, in the order of their effects, are answered by the fold, and come to its map.
fn is_folded(report: &ReportOf<SumFns>) -> bool {
    let mut fold = Fold::new();
    for step in 0..=report.outcomes.len() as u64 {
        for life in &report.lives {
            if let End::Finished(finish) = life.end {
                if finish.effect == step && fold.answer(&life.op) != finish.answer {
                    return false;
                }
            }
        }
    }
    fold.is_map(report.map.as_slice())
}

/// Whether a replay's map is the fold of its lives, replayed once more where memory is refused to it.
fn is_replayed(alloc: Global, part: &str) -> bool {
    let report = match replayed(alloc, part) {
        Err(Refused::NoMemory) => replayed(alloc, part),
        report => report,
    };
    report.is_ok_and(|report| is_folded(&report))
}

/// Here a step that is refused is not made again, so the steps after it tell otherwise.
#[test]
fn refused_growths_of_a_replay(rt: HostRuntime) {
    assert!(rt; is_replayed(rt.alloc(), TWO_UPDATES_OF_AN_EVICTED_KEY.part));
}
