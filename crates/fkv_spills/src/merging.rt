//! The merge of what gives pairs and may be refused one, a pair at a time.
ghost use Rattle.std.specs.Prelude.{◌≡◌, ℕ, List, map};
ghost use Rattle.fkv_functions.specs.Names.{name_cmp};
ghost use Rattle.fkv_functions.specs.declared.names.Name.{Name};
ghost use Rattle.fkv_runs.specs.Merging.{chosen, merged, first_from, first_key};
ghost use Rattle.fkv_spills.specs.Reading.{AreHeld, HasMerged, IsRefusedByOne};

use crate::reads::ReadPairs;
use fkv_functions::{Name, Refused};
use std::cmp::Ordering;

/// The pairs of several that are still to come, as one list: the next pair is the one whose key is the least of those that come
/// next.
#[derive(Drop)]
pub struct ReadMerge<P> {
    rests: Vec<P>,
    /// Which of them has the least next name, of equal ones the first, and that name: made once for all who ask.
    first: Option<(usize, Name)>,
}

/// Of a name at a place, if there is one, and the first of those behind it, the one that comes first.
#[inline(always)]
fn sooner(place: usize, name: Option<Name>, other: Option<(usize, Name)>) -> Option<(usize, Name)>
    ensures { result ≡ chosen name_cmp place name other }
{
    let Some(name) = name else {
        return other;
    };
    if let Some((_, first)) = &other {
        if name.cmp(first) == Ordering::Greater {
            return other;
        }
    }
    Some((place, name))
}

/// The place whose next name is the least, of equal ones the first, and that name.
fn first_place<P: ReadPairs>(rests: &[P]) -> Option<(usize, Name)>
    ensures { (lists : List (List (Name × P.Value))) → AreHeld P.holds rests.now lists
        → result ≡ first_from name_cmp 0 (map first_key lists) }
{
    let mut first = None;
    let mut place = rests.len();
    while place > 0 {
        place -= 1;
        first = sooner(place, rests[place].next_name(), first);
    }
    first
}

impl<P: ReadPairs> ReadMerge<P> {
    /// All pairs of these.
    pub fn new(rests: Vec<P>) -> ReadMerge<P>
        ensures { (lists : List (List (Name × P.Value))) → AreHeld P.holds rests.items lists
            → HasMerged P.holds result (merged name_cmp lists) }
    {
        let first = first_place(rests.as_slice());
        ReadMerge { rests, first }
    }
}

impl<P: ReadPairs> ReadPairs for ReadMerge<P> {
    type Value = P::Value;

    ghost holds = { HasMerged P.holds };

    ghost refuses = { λ old new e. IsRefusedByOne P.refuses old.rests.items new.rests.items e };

    #[inline(always)]
    fn next_name(&self) -> Option<Name> {
        match &self.first {
            Some((_, name)) => Some(*name),
            None => None,
        }
    }

    fn next(&mut self) -> Result<Option<(Name, P::Value)>, Refused> {
        let place = match &self.first {
            Some((place, _)) => *place,
            None => return Ok(None),
        };
        if place >= self.rests.len() {
            return Ok(None);
        }
        match self.rests[place].next() {
            Ok(pair) => {
                self.first = first_place(self.rests.as_slice());
                Ok(pair)
            }
            Err(refused) => Err(refused),
        }
    }
}
