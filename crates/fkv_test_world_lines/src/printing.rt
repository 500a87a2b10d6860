//! The text of outcomes, lives and maps.
use fkv_functions::{Name, Refused, SumFns};
use fkv_lives::{End, LifeOf, Outcome, OutcomeOf};
use fkv_operations::{Op, OpOf};
use fkv_worlds::ReportOf;
use std::io::{self, Write};
use std::str;

/// The text of a name: parts have no others.
fn text_of(key: &Name) -> &str {
    str::from_utf8(key.bytes()).unwrap_or("?")
}

/// Adds the line of what was told.
pub fn add_told(text: &mut Vec<u8>, told: &Result<OutcomeOf<SumFns>, Refused>) -> io::Result<()> {
    match told {
        Ok(outcome) => writeln!(text, "{outcome}"),
        Err(refused) => writeln!(text, "refused {refused:?}"),
    }
}

fn add_operation(text: &mut Vec<u8>, op: &OpOf<SumFns>) -> io::Result<()> {
    match op {
        Op::Read(key, input) => write!(text, "read {} {input}", text_of(key)),
        Op::Upsert(key, value) => write!(text, "upsert {} {value}", text_of(key)),
        Op::Rmw(key, input) => write!(text, "rmw {} {input}", text_of(key)),
        Op::Delete(key) => write!(text, "delete {}", text_of(key)),
        Op::Merge(key, input) => write!(text, "merge {} {input}", text_of(key)),
        Op::Relocate => write!(text, "relocate"),
    }
}

fn add_end(text: &mut Vec<u8>, end: &End<i128>) -> io::Result<()> {
    match end {
        End::Open => writeln!(text, "open"),
        End::Finished(finish) => {
            let told: OutcomeOf<SumFns> = Outcome::Done(finish.answer);
            writeln!(
                text,
                "effect {}, told {}, {told}",
                finish.effect, finish.done
            )
        }
        End::Failed => writeln!(text, "failed"),
        End::GivenUp => writeln!(text, "given up"),
    }
}

fn add_life(text: &mut Vec<u8>, life: &LifeOf<SumFns>) -> io::Result<()> {
    write!(
        text,
        "life {} {} {} ",
        life.partition, life.session, life.number
    )?;
    add_operation(text, &life.op)?;
    write!(text, ", issue {}, ", life.issue)?;
    add_end(text, &life.end)
}

/// Adds the number of outcomes, with whether a replay reports the same, then the lives and the live map, a line for each.
pub fn add_report(text: &mut Vec<u8>, report: &ReportOf<SumFns>, replayed: &str) -> io::Result<()> {
    writeln!(text, "outcomes {}, {replayed}", report.outcomes.len())?;
    for life in &report.lives {
        add_life(text, life)?;
    }
    writeln!(text, "map {}", report.map.len())?;
    for (key, value) in &report.map {
        writeln!(text, "{} {value}", text_of(key))?;
    }
    Ok(())
}
