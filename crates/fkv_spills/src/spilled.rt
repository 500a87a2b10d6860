//! A run whose pairs stand in pages of a device.
ghost use Rattle.std.specs.Prelude.{◌≡◌, ◌<◌, ◌≤◌, ◌%◌, ℕ, List, filter, length, nat_eq, IsTrue, IfOk, IfErr, OnOk};
ghost use Rattle.fkv_functions.specs.declared.names.Name.{Name};
ghost use Rattle.fkv_device.specs.Failing.{FailsOnlyBy};
ghost use Rattle.fkv_spills.specs.Spilling.{pair_size, AreSpilled};

use crate::gathering::Gathered;
use crate::pages::SpilledPage;
use fkv_device::{PageWriter, Receipt};
use fkv_functions::{Fixed, Functions, Name, Refused};
use std::alloc::Global;
use std::collections::{BTreeMap, VecDeque};
use std::marker::PhantomData;

/// A run whose pairs stand in pages of a device. It has the receipts of these pages, and of each how many pairs stand in it.
#[derive(Drop)]
pub struct Spilled<V, R> {
    pub pages: VecDeque<SpilledPage<R>>,
    /// How many pairs it has.
    pub len: usize,
    pub values: PhantomData<V>,
}

impl<V: Fixed, R: Receipt> Spilled<V, R> {
    /// The run of those of a map's pairs that are at home, whose key's hash leaves this number, modulo a count: they are written to
    /// pages of `page_size` bytes, from page `first` on, in the map's order.
    ///
    /// # Errors
    ///
    /// `NoMemory`; `Device` with code 2 where a page can't be written.
    pub fn of_home<F: Functions<Key = Name, Value = V>, W: PageWriter<Receipt = R>>(
        alloc: Global,
        functions: &F,
        number: u64,
        count: u64,
        map: &BTreeMap<Name, V>,
        writer: &mut W,
        page_size: usize,
        first: u64,
    ) -> Result<Spilled<V, R>, Refused>
        requires some { 0 < count }
        requires most { pair_size V.SIZE ≤ 192 }
        ensures ok { IsTrue R.keeps → IfOk result (λ run. AreSpilled V.codec R.stands run.pages.items
            (filter (λ pair. nat_eq (F.code pair.0 % count) number) map.now.entries)) }
        ensures len { IfOk result (λ run. run.len
            ≡ length (filter (λ pair. nat_eq (F.code pair.0 % count) number) map.now.entries)) }
        ensures steady { OnOk result (W.failures writer.new ≡ W.failures writer.old) }
        ensures refused { IfErr result (λ e. (page : ℕ) × FailsOnlyBy 2 page (W.failures writer.old) (W.failures writer.new) e) }
    {
        let mut gathered: Gathered<V, R> = Gathered::new(alloc, page_size, first);
        let mut len = map.len();
        for (name, value) in map {
            if functions.hash(name) % count == number {
                match gathered.put(writer, name, *value) {
                    Ok(()) => {}
                    Err(refused) => return Err(refused),
                }
            } else {
                len -= 1;
            }
        }
        match gathered.finish(writer) {
            Ok(pages) => Ok(Spilled {
                pages,
                len,
                values: PhantomData,
            }),
            Err(refused) => Err(refused),
        }
    }
}
