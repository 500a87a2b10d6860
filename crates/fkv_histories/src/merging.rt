//! The test, as a program runs, that a history is a merge of callers' own lists.
ghost use Rattle.std.specs.Prelude.{◌≡◌, ◌↔◌, ◌<◌, ◌≤◌, ℕ, true, length, map, IsTrue, IfOk, IfErr};
ghost use Rattle.std.specs.List.{filter, All};
ghost use Rattle.fkv_histories.specs.Merges.{told, owned_by, owner_in, AreClaimed, AreOwners, IsShuffle, IsShuffleBy, IsMerge};

use crate::entries::{EntryOf, is_same_told};
use fkv_functions::{Mergeable, Refused};
use std::alloc::Global;

/// The owner of a session by a table, or nobody where the table is too short.
fn owner_of(who: &[u64], nobody: u64, session: u64) -> u64
    ensures { result ≡ owner_in who.now nobody session }
{
    match usize::try_from(session) {
        Ok(at) if at < who.len() => who[at],
        _ => nobody,
    }
}

/// Whether an own list is, in order, what the history has of the sessions of its owner.
fn is_part<F: Mergeable>(
    who: &[u64],
    nobody: u64,
    owner: u64,
    history: &[EntryOf<F>],
    own: &[EntryOf<F>],
) -> bool
    ensures { IsTrue result ↔ (told own.now ≡ told (filter (owned_by (owner_in who.now nobody) owner) history.now)) }
{
    let mut next = 0;
    for entry in history {
        if owner_of(who, nobody, entry.session) != owner {
            continue;
        }
        if next >= own.len() {
            return false;
        }
        if !is_same_told::<F>(&own[next], entry) {
            return false;
        }
        next += 1;
    }
    next == own.len()
}

/// Whether a history is a merge of these own lists by the table.
fn is_shuffle_by<F: Mergeable>(
    who: &[u64],
    nobody: u64,
    history: &[EntryOf<F>],
    owns: &[Vec<EntryOf<F>>],
) -> bool
    ensures { IsTrue result
        ↔ IsShuffleBy (owner_in who.now nobody) history.now (map (λ own. own.items) owns.now) }
{
    let mut total = 0usize;
    for (owner, own) in owns.iter().enumerate() {
        let list = own.as_slice();
        if !is_part::<F>(who, nobody, owner as u64, history, list) {
            return false;
        }
        let Some(more) = total.checked_add(list.len()) else {
            return false;
        };
        total = more;
    }
    total == history.len()
}

/// The greatest of a number and the sessions of a list.
fn top_of<F: Mergeable>(least: u64, list: &[EntryOf<F>]) -> u64
    ensures least { least ≤ result }
    ensures all { All (λ entry. entry.session ≤ result) list.now }
{
    let mut top = least;
    for entry in list {
        top = top.max(entry.session);
    }
    top
}

/// The greatest session of the lists, or 0.
fn top_session<F: Mergeable>(owns: &[Vec<EntryOf<F>>]) -> u64
    ensures { All (λ own. All (λ entry. entry.session ≤ result) own.items) owns.now }
{
    let mut top = 0;
    for own in owns {
        top = top_of::<F>(top, own.as_slice());
    }
    top
}

/// Claims each session of a list for an owner.
fn claim<F: Mergeable>(who: &mut Vec<u64>, list: &[EntryOf<F>], owner: u64)
    requires { All (λ entry. entry.session < length who.old.items) list.now }
    ensures len { length who.new.items ≡ length who.old.items }
    ensures claimed { AreClaimed who.old.items who.new.items list.now owner }
{
    for entry in list {
        who[entry.session as usize] = owner;
    }
}

/// A table of owners: in which of the lists each session stands. Refused: `NoMemory`.
fn owners<F: Mergeable>(alloc: Global, owns: &[Vec<EntryOf<F>>]) -> Result<Vec<u64>, Refused>
    ensures ok { IfOk result (λ who. AreOwners who.items (map (λ own. own.items) owns.now) (length owns.now)) }
    ensures only { IfErr result (λ refused. refused ≡ Refused.NoMemory) }
{
    let nobody = owns.len() as u64;
    let Some(size) = (top_session::<F>(owns) as usize).checked_add(1) else {
        return Err(Refused::NoMemory);
    };
    let Ok(mut who) = vec![in alloc; nobody; size] else {
        return Err(Refused::NoMemory);
    };
    for (owner, own) in owns.iter().enumerate() {
        claim::<F>(&mut who, own.as_slice(), owner as u64);
    }
    Ok(who)
}

/// Whether a history is a merge of these own lists, the updates and reads of each in one order. Refused: `NoMemory`.
pub fn is_merge<F: Mergeable>(
    alloc: Global,
    history: &[EntryOf<F>],
    owns: &[Vec<EntryOf<F>>],
) -> Result<bool, Refused>
    ensures merge { IfOk result (λ is. IsTrue is → IsMerge history.now (map (λ own. own.items) owns.now)) }
    ensures exactly { IfOk result (λ is. IsTrue is ↔ IsShuffle history.now (map (λ own. own.items) owns.now)) }
    ensures only { IfErr result (λ refused. refused ≡ Refused.NoMemory) }
{
    let who = match owners::<F>(alloc, owns) {
        Err(refused) => return Err(refused),
        Ok(who) => who,
    };
    Ok(is_shuffle_by::<F>(who.as_slice(), owns.len() as u64, history, owns))
}
