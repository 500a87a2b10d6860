//! Cells: 64 bytes of any kind, by name; their functions, and how they cross.
ghost use Rattle.std.specs.Prelude.{◌≡◌, length, false};
ghost use Rattle.fkv_functions.specs.Meanings.{unmerged, unmerged_associative};
ghost use Rattle.fkv_functions.specs.Hashes.{fnv_1a};
ghost use Rattle.fkv_functions.specs.Names.{text_of};
ghost use Rattle.fkv_c.specs.Cells.{blind, cell_codec, zero_cell, no_cell, cell_answer_of, cell_pair_of};

use crate::numbers::padded;
use fkv_functions::{Fixed, Functions, Known, Mergeable, Name};
use fkv_operations::Answer;

/// 64 bytes of any kind.
#[repr(C)]
#[derive(Clone, Copy, Debug)]
pub struct Cell {
    pub bytes: [u8; 64],
}

impl Cell {
    /// The cell of zeros.
    pub fn zero() -> Cell
        ensures { result ≡ zero_cell }
    {
        Cell { bytes: [0; 64] }
    }
}

impl Known for Cell {
    ghost is_known = { λ c. length c.bytes ≡ 64 };

    fn known(&self) {
        let _len = self.bytes.len();
    }

    fn is(&self, other: &Cell) -> bool {
        self.bytes == other.bytes
    }
}

impl Fixed for Cell {
    const SIZE: usize = 64;

    ghost SIZE = { 64 };

    ghost codec = { cell_codec };

    fn put(&self, out: &mut [u8]) {
        out.copy_from_slice(&self.bytes);
    }

    fn take(bytes: &[u8]) -> Option<Cell> {
        let mut all = [0u8; 64];
        all.copy_from_slice(bytes);
        Some(Cell { bytes: all })
    }

    fn bytes_equal(&self, bytes: &[u8]) -> bool {
        bytes == self.bytes.as_slice()
    }

    ghost written = { λ v h. h };
}

/// Values that are written, read and removed, and that no input updates: an update is declined.
#[derive(Clone, Copy, Debug, Default)]
pub struct CellFns;

impl Functions for CellFns {
    type Key = Name;

    type Value = Cell;

    type Input = i64;

    type Output = Cell;

    ghost meaning = { blind };

    ghost code = { λ name. fnv_1a (text_of name) };

    fn initial(&self, _key: &Name, _input: &i64) -> Option<Cell> {
        None
    }

    fn in_place(&self, _key: &Name, _input: &i64, _value: &mut Cell) -> bool {
        false
    }

    fn copy(&self, _key: &Name, _input: &i64, _held: &Cell) -> Option<Cell> {
        None
    }

    fn read(&self, _key: &Name, _input: &i64, held: &Cell) -> Cell {
        *held
    }

    fn hash(&self, key: &Name) -> u64 {
        key.hash()
    }
}

impl Mergeable for CellFns {
    const MERGES: bool = false;

    ghost MERGES = { false };

    ghost parts = { unmerged (λ k i. zero_cell) };

    ghost merges = { λ h. absurd (cc) };

    ghost associative = { λ u v w. unmerged_associative w };

    fn delta(&self, _key: &Name, _input: &i64) -> Cell {
        Cell::zero()
    }

    fn join(&self, _value: &Cell, part: &Cell) -> Cell {
        *part
    }
}

/// What an operation on cells answers.
#[repr(C)]
#[derive(Clone, Copy)]
pub struct CellTold {
    /// 0 a cell, 1 that the key has none, 2 that one was stored, 3 that the key was removed.
    pub kind: u64,
    /// The cell, or zeros.
    pub cell: Cell,
}

impl CellTold {
    /// What tells this answer.
    pub(crate) fn of(answer: Answer<Cell>) -> CellTold
        ensures { result ≡ cell_answer_of answer }
    {
        match answer {
            Answer::Value(cell) => CellTold { kind: 0, cell },
            Answer::Absent => CellTold::bare(1),
            Answer::Stored => CellTold::bare(2),
            Answer::Deleted => CellTold::bare(3),
            Answer::Declined => CellTold::bare(4),
            Answer::Cleared => CellTold::bare(5),
        }
    }

    /// An answer of this kind, which has no cell.
    fn bare(kind: u64) -> CellTold
        ensures { result ≡ no_cell kind }
    {
        CellTold {
            kind,
            cell: Cell::zero(),
        }
    }
}

/// A key and its cell.
#[repr(C)]
#[derive(Clone, Copy)]
pub struct CellPair {
    /// 1 where there is one, 0 at the end.
    pub is_some: u64,
    /// How many bytes the key has.
    pub length: u64,
    /// The key's bytes, and zeros.
    pub key: [u8; 32],
    pub cell: Cell,
}

impl CellPair {
    /// What tells this key and cell, or that there is none.
    pub(crate) fn of(pair: Option<(Name, Cell)>) -> CellPair
        ensures { result ≡ cell_pair_of pair }
    {
        match pair {
            None => CellPair {
                is_some: 0,
                length: 0,
                key: [0; 32],
                cell: Cell::zero(),
            },
            Some((name, cell)) => CellPair {
                is_some: 1,
                length: name.bytes().len() as u64,
                key: padded(name.bytes()),
                cell,
            },
        }
    }
}
