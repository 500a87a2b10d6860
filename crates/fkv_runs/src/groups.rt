//! Runs in groups, each merged: the next pair of many runs costs a few looks.
ghost use Rattle.std.specs.Prelude.{◌≡◌, IfOk, IfErr};
ghost use Rattle.fkv_functions.specs.Names.{name_cmp};
ghost use Rattle.fkv_functions.specs.declared.names.Name.{Name};
ghost use Rattle.fkv_runs.specs.Merging.{merged};

use crate::merging::Merge;
use crate::pairs::Pairs;
use crate::rests::Rest;
use crate::runs::Run;
use fkv_functions::{Name, Refused};
use std::alloc::Global;
use std::marker::Model;

/// How many are read side by side: the next pair costs a look at each.
const SIDE_BY_SIDE: usize = 4;

/// How many runs stand in a few groups.
pub(crate) const RUNS_OF_GROUPS: usize = SIDE_BY_SIDE * SIDE_BY_SIDE;

/// The pairs of a few runs that are still to come, as one list.
#[derive(Drop)]
pub struct Group<'a, V: Copy> {
    merge: Merge<Rest<'a, V>>,
}

impl<'a, V: Copy> Model for Group<'a, V> {
    ghost use Rattle.std.specs.Prelude.{List};
    ghost use Rattle.fkv_functions.specs.declared.names.Name.{Name};

    ghost Value = { List (Name × V) };

    ghost view = { λ g. g.merge };
}

impl<'a, V: Copy> Group<'a, V> {
    /// All pairs of these runs. Refused: `NoMemory`.
    pub(crate) fn of(alloc: Global, runs: &'a [Run<V>]) -> Result<Group<'a, V>, Refused>
        ensures ok { IfOk result (λ group. group ≡ merged name_cmp runs.now) }
        ensures only { IfErr result (λ refused. refused ≡ Refused.NoMemory) }
    {
        let Ok(mut rests) = Vec::with_capacity(alloc, runs.len()) else {
            return Err(Refused::NoMemory);
        };
        for index in 0..runs.len() {
            let Ok(()) = rests.push(runs[index].rest()) else {
                return Err(Refused::NoMemory);
            };
        }
        Ok(Group {
            merge: Merge::new(rests),
        })
    }
}

impl<'a, V: Copy> Pairs for Group<'a, V> {
    type Value = V;

    ghost left = { λ g. g };

    #[inline(always)]
    fn next_name(&self) -> Option<Name> {
        self.merge.next_name()
    }

    fn next(&mut self) -> Option<(Name, V)> {
        self.merge.next()
    }
}

/// The pairs of a few groups of runs that are still to come, as one list.
#[derive(Drop)]
pub struct Groups<'a, V: Copy> {
    merge: Merge<Group<'a, V>>,
}

impl<'a, V: Copy> Model for Groups<'a, V> {
    ghost use Rattle.std.specs.Prelude.{List};
    ghost use Rattle.fkv_functions.specs.declared.names.Name.{Name};

    ghost Value = { List (Name × V) };

    ghost view = { λ g. g.merge };
}

impl<'a, V: Copy> Groups<'a, V> {
    /// All pairs of these runs. Refused: `NoMemory`.
    pub(crate) fn of(alloc: Global, runs: &'a [Run<V>]) -> Result<Groups<'a, V>, Refused>
        ensures ok { IfOk result (λ groups. groups ≡ merged name_cmp runs.now) }
        ensures only { IfErr result (λ refused. refused ≡ Refused.NoMemory) }
    {
        let mut groups = Vec::new(alloc);
        let mut rest = runs;
        while rest.len() > SIDE_BY_SIDE {
            let (some, behind) = rest.split_at(SIDE_BY_SIDE);
            let group = match Group::of(alloc, some) {
                Ok(group) => group,
                Err(refused) => return Err(refused),
            };
            let Ok(()) = groups.push(group) else {
                return Err(Refused::NoMemory);
            };
            rest = behind;
        }
        let group = match Group::of(alloc, rest) {
            Ok(group) => group,
            Err(refused) => return Err(refused),
        };
        match groups.push(group) {
            Ok(()) => Ok(Groups {
                merge: Merge::new(groups),
            }),
            Err(_) => Err(Refused::NoMemory),
        }
    }
}

impl<'a, V: Copy> Pairs for Groups<'a, V> {
    type Value = V;

    ghost left = { λ g. g };

    #[inline(always)]
    fn next_name(&self) -> Option<Name> {
        self.merge.next_name()
    }

    fn next(&mut self) -> Option<(Name, V)> {
        self.merge.next()
    }
}
