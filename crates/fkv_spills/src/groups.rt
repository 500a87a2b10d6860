//! The merge of many: they are merged in groups, so that the next pair costs a look at few.
ghost use Rattle.std.specs.Prelude.{◌≡◌, ◌++◌, ◌∷◌, [], List, IfOk, IfErr, OnOk};
ghost use Rattle.fkv_functions.specs.Names.{name_cmp};
ghost use Rattle.fkv_functions.specs.declared.names.Name.{Name};
ghost use Rattle.fkv_functions.specs.declared.refusals.Refused.TheVariants as refused;
ghost use Rattle.fkv_runs.specs.Merging.{merged};
ghost use Rattle.fkv_spills.specs.Reading.{HasMerged, IsGrouped};

use crate::merging::ReadMerge;
use crate::reads::ReadPairs;
use fkv_functions::Refused;
use std::alloc::Global;
use std::mem::replace;

/// How many are merged in a group: the next pair costs a look at each.
const SIDE_BY_SIDE: usize = 8;

/// What gives pairs, several of them, to be merged: groups that are merged, and those of the next group.
#[derive(Drop)]
pub struct ReadGroups<P> {
    alloc: Global,
    groups: Vec<ReadMerge<P>>,
    rests: Vec<P>,
}

impl<P: ReadPairs> ReadGroups<P> {
    /// None yet.
    pub fn new(alloc: Global) -> ReadGroups<P>
        ensures { IsGrouped P.holds result [] }
    {
        ReadGroups {
            alloc,
            groups: Vec::new(alloc),
            rests: Vec::new(alloc),
        }
    }

    /// Merges the next group, and begins another one. Refused: `NoMemory`.
    fn close(&mut self) -> Result<(), Refused>
        ensures ok { (lists : List (List (Name × P.Value)))
            → IsGrouped P.holds self.old lists
            → OnOk result (IsGrouped P.holds self.new lists) }
        ensures none { OnOk result (self.new.rests.items ≡ []) }
        ensures only { IfErr result (λ e. e ≡ refused.NoMemory) }
    {
        let rests = replace(&mut self.rests, Vec::new(self.alloc));
        let Ok(()) = self.groups.push(ReadMerge::new(rests)) else {
            return Err(Refused::NoMemory);
        };
        Ok(())
    }

    /// One more, behind the others. Refused: `NoMemory`.
    pub fn add(&mut self, rest: P) -> Result<(), Refused>
        ensures ok { (lists : List (List (Name × P.Value))) → (xs : List (Name × P.Value))
            → IsGrouped P.holds self.old lists
            → P.holds rest xs
            → OnOk result (IsGrouped P.holds self.new (lists ++ xs ∷ [])) }
        ensures only { IfErr result (λ e. e ≡ refused.NoMemory) }
    {
        let Ok(()) = self.rests.push(rest) else {
            return Err(Refused::NoMemory);
        };
        if self.rests.len() < SIDE_BY_SIDE {
            return Ok(());
        }
        self.close()
    }

    /// The pairs of all of them. Refused: `NoMemory`.
    pub fn merge(self) -> Result<ReadMerge<ReadMerge<P>>, Refused>
        ensures ok { (lists : List (List (Name × P.Value)))
            → IsGrouped P.holds self lists
            → IfOk result (λ merge. HasMerged (HasMerged P.holds) merge (merged name_cmp lists)) }
        ensures only { IfErr result (λ e. e ≡ refused.NoMemory) }
    {
        let mut all = self;
        match all.close() {
            Ok(()) => {}
            Err(refused) => return Err(refused),
        }
        let ReadGroups { groups, .. } = all;
        Ok(ReadMerge::new(groups))
    }
}
