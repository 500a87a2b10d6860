//! What a replay prints.
ghost use Rattle.std.specs.Prelude.{◌≡◌, ◌++◌, IfOk, IfErr, OnOk};
ghost use Rattle.fkv_steps.specs.Printing.{step_text, steps_text, pair_text, map_text, line};

use fkv_functions::{Name, Refused};
use fkv_lives::{Outcome, Printed};
use std::alloc::Global;
use std::io::Write;

/// The whole text that a replay prints: a line for each step, then the number of live keys, and a line
/// for each of them in the order given. Refused: `NoMemory`.
pub fn text_of<V: Printed, O: Printed>(
    alloc: Global,
    steps: &[Result<Outcome<V, O>, Refused>],
    pairs: &[(Name, V)],
) -> Result<Vec<u8>, Refused>
    ensures ok { IfOk result (λ text. text.items ≡ steps_text V.text O.text steps.now ++ map_text V.text pairs.now) }
    ensures only { IfErr result (λ refused. refused ≡ Refused.NoMemory) }
{
    let mut text = Vec::new(alloc);
    for step in steps {
        match add_step(&mut text, step) {
            Ok(()) => {}
            Err(refused) => return Err(refused),
        }
    }
    match add_map(&mut text, pairs) {
        Ok(()) => Ok(text),
        Err(refused) => Err(refused),
    }
}

/// Adds the line of a step.
fn add_step<V: Printed, O: Printed>(
    text: &mut Vec<u8>,
    step: &Result<Outcome<V, O>, Refused>,
) -> Result<(), Refused>
    ensures ok { OnOk result (text.new.items ≡ text.old.items ++ line (step_text V.text O.text step.now)) }
    ensures only { IfErr result (λ refused. refused ≡ Refused.NoMemory) }
{
    match step {
        Ok(outcome) => match writeln!(text, "{outcome}") {
            Ok(()) => Ok(()),
            Err(_) => Err(Refused::NoMemory),
        },
        Err(refused) => match writeln!(text, "refused {}", refused.name()) {
            Ok(()) => Ok(()),
            Err(_) => Err(Refused::NoMemory),
        },
    }
}

/// Adds the lines of the map.
fn add_map<V: Printed>(text: &mut Vec<u8>, pairs: &[(Name, V)]) -> Result<(), Refused>
    ensures ok { OnOk result (text.new.items ≡ text.old.items ++ map_text V.text pairs.now) }
    ensures only { IfErr result (λ refused. refused ≡ Refused.NoMemory) }
{
    let Ok(()) = writeln!(text, "map {}", pairs.len()) else {
        return Err(Refused::NoMemory);
    };
    for (key, value) in pairs {
        match add_pair(text, key, value) {
            Ok(()) => {}
            Err(refused) => return Err(refused),
        }
    }
    Ok(())
}

/// Adds the line of a key and its value.
fn add_pair<V: Printed>(text: &mut Vec<u8>, key: &Name, value: &V) -> Result<(), Refused>
    ensures ok { OnOk result (text.new.items ≡ text.old.items ++ line (pair_text V.text (key.now, value.now))) }
    ensures only { IfErr result (λ refused. refused ≡ Refused.NoMemory) }
{
    let Ok(()) = text.extend_from_slice(key.bytes()) else {
        return Err(Refused::NoMemory);
    };
    value.printed();
    let Ok(()) = writeln!(text, " {value}") else {
        return Err(Refused::NoMemory);
    };
    Ok(())
}
