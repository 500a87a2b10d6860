//! What C calls. `include/fkv.h` says what C owes.
ghost use Rattle.std.specs.Prelude.{◌≡◌, ◌≢◌, pos, length, None};
ghost use Rattle.fkv_operations.specs.declared.operations.KeyedOp.TheVariants.{Read, Upsert, Rmw, Delete, Merge};
ghost use Rattle.fkv_c.specs.Crossing.{value_of, config_of};
ghost use Rattle.fkv_c.specs.Stores.{HasSettings, RefusesCompaction, RefusesList, IsCompactionTold};
ghost use Rattle.fkv_c.specs.Leading.{Store, IsStore, Cursor, cursor_of, kind_of, set_of, store_kind, map_of, cells_of, LeadsAsMuch};
ghost use Rattle.fkv_c.specs.Leading.{pairs_of, FirstIsLeast, IsNextTold, AreCounts, IsPerformed, IsPerformedAt, IsNoKey};
ghost use Rattle.fkv_c.specs.Leading.{IsOpenStatus, IsStoreStatus, IsListStatus, counts_status, next_status, close_status};

use crate::calls::{close, compact, counts, list, next, open, operate};
use crate::faults::{Fault, status_name};
use crate::handles::Handle;
use crate::numbers::{Number, Pair, Settings, Sizes, Told};
use crate::sets::AnyOp;
use fkv_functions::Name;
use fkv_operations::KeyedOp;
use std::alloc::Global;

/// Opens a closed handle, as an empty store of this kind, in memory.
#[unsafe(no_mangle)]
pub extern "C" fn fkv_c_open(
    alloc: Global,
    store: &mut Handle,
    kind: u32,
    settings: &Settings,
) -> u32
    ensures opened { result ≡ 0 → set_of store.new.held ≡ kind }
    ensures store { result ≡ 0 → kind_of store.new.held ≡ store_kind kind }
    ensures empty { result ≡ 0 → (k : Name) → map_of store.new.held k ≡ None }
    ensures no_cells { result ≡ 0 → (k : Name) → cells_of store.new.held k ≡ None }
    ensures was { result ≡ 0 → store.old.held ≡ None }
    ensures settings { result ≡ 0 → HasSettings store.new.held (config_of settings.now) }
    ensures status { IsOpenStatus store.old.held kind (config_of settings.now) result }
    ensures left { result ≢ 0 → store.new.held ≡ store.old.held }
{
    match open(alloc, kind, &settings.config(), store) {
        Ok(()) => 0,
        Err(fault) => fault.number(),
    }
}

/// Makes an operation, and writes its answer.
fn perform(alloc: Global, store: &mut Handle, op: AnyOp, answer: &mut Told) -> u32
    ensures { IsPerformed store.old.held store.new.held op answer.old answer.new result }
{
    match operate(alloc, store, op) {
        Ok(came) => {
            *answer = Told::of(came);
            0
        }
        Err(fault) => fault.number(),
    }
}

/// Changes the value of a key by an input, or gives it its first, and tells the new one.
#[unsafe(no_mangle)]
pub extern "C" fn fkv_c_rmw(
    alloc: Global,
    store: &mut Handle,
    name: &[u8],
    input: i64,
    answer: &mut Told,
) -> u32
    ensures performed { IsPerformedAt name.now store.old.held store.new.held (λ k. Rmw k input) answer.old answer.new result }
    ensures unkeyed { IsNoKey name.now → (result ≡ 36) × (store.new.held ≡ store.old.held) × (answer.new ≡ answer.old) }
{
    match Name::new(name) {
        None => Fault::BadKey.number(),
        Some(key) => perform(alloc, store, KeyedOp::Rmw(key, input), answer),
    }
}

/// Tells the value of a key, or that it has none.
#[unsafe(no_mangle)]
pub extern "C" fn fkv_c_read(
    alloc: Global,
    store: &mut Handle,
    name: &[u8],
    answer: &mut Told,
) -> u32
    ensures performed { IsPerformedAt name.now store.old.held store.new.held (λ k. Read k (pos 0)) answer.old answer.new result }
    ensures unkeyed { IsNoKey name.now → (result ≡ 36) × (store.new.held ≡ store.old.held) × (answer.new ≡ answer.old) }
{
    match Name::new(name) {
        None => Fault::BadKey.number(),
        Some(key) => perform(alloc, store, KeyedOp::Read(key, 0), answer),
    }
}

/// Sets the value of a key, whatever it was.
#[unsafe(no_mangle)]
pub extern "C" fn fkv_c_upsert(
    alloc: Global,
    store: &mut Handle,
    name: &[u8],
    value: &Number,
    answer: &mut Told,
) -> u32
    ensures performed { IsPerformedAt name.now store.old.held store.new.held (λ k. Upsert k (value_of value.now)) answer.old answer.new result }
    ensures unkeyed { IsNoKey name.now → (result ≡ 36) × (store.new.held ≡ store.old.held) × (answer.new ≡ answer.old) }
{
    match Name::new(name) {
        None => Fault::BadKey.number(),
        Some(key) => perform(alloc, store, KeyedOp::Upsert(key, value.value()), answer),
    }
}

/// Removes a key.
#[unsafe(no_mangle)]
pub extern "C" fn fkv_c_delete(
    alloc: Global,
    store: &mut Handle,
    name: &[u8],
    answer: &mut Told,
) -> u32
    ensures performed { IsPerformedAt name.now store.old.held store.new.held (λ k. Delete k) answer.old answer.new result }
    ensures unkeyed { IsNoKey name.now → (result ≡ 36) × (store.new.held ≡ store.old.held) × (answer.new ≡ answer.old) }
{
    match Name::new(name) {
        None => Fault::BadKey.number(),
        Some(key) => perform(alloc, store, KeyedOp::Delete(key), answer),
    }
}

/// Changes the value of a key as `fkv_c_rmw` does, tells nothing of it, and reads no page.
#[unsafe(no_mangle)]
pub extern "C" fn fkv_c_merge(
    alloc: Global,
    store: &mut Handle,
    name: &[u8],
    input: i64,
    answer: &mut Told,
) -> u32
    ensures performed { IsPerformedAt name.now store.old.held store.new.held (λ k. Merge k input) answer.old answer.new result }
    ensures unkeyed { IsNoKey name.now → (result ≡ 36) × (store.new.held ≡ store.old.held) × (answer.new ≡ answer.old) }
{
    match Name::new(name) {
        None => Fault::BadKey.number(),
        Some(key) => perform(alloc, store, KeyedOp::Merge(key, input), answer),
    }
}

/// Appends what lives at the start of the logs again, and cuts that start. Tells whether any was cut.
#[unsafe(no_mangle)]
pub extern "C" fn fkv_c_compact(alloc: Global, store: &mut Handle, has_cut: &mut u32) -> u32
    ensures same { LeadsAsMuch store.old.held store.new.held }
    ensures kind { kind_of store.new.held ≡ kind_of store.old.held }
    ensures set { set_of store.new.held ≡ set_of store.old.held }
    ensures store { result ≡ 0 → IsStore (kind_of store.old.held) }
    ensures cut { result ≡ 0 → IsCompactionTold store.old.held store.new.held has_cut.new }
    ensures status { IsStoreStatus (kind_of store.old.held) (RefusesCompaction store.old.held store.new.held) result }
    ensures left { result ≢ 0 → has_cut.new ≡ has_cut.old }
{
    match compact(alloc, store) {
        Ok(cut) => {
            *has_cut = u32::from(cut);
            0
        }
        Err(fault) => fault.number(),
    }
}

/// Tells how much a store holds.
#[unsafe(no_mangle)]
pub extern "C" fn fkv_c_counts(alloc: Global, store: &mut Handle, sizes: &mut Sizes) -> u32
    ensures counted { result ≡ 0 → AreCounts store.old.held sizes.new.bytes sizes.new.evicted sizes.new.moments }
    ensures same { store.new.held ≡ store.old.held }
    ensures status { result ≡ counts_status (kind_of store.old.held) }
    ensures left { result ≢ 0 → sizes.new ≡ sizes.old }
{
    match counts(alloc, store) {
        Ok(held) => {
            *sizes = Sizes {
                bytes: held.bytes,
                evicted: held.evicted,
                moments: held.moments,
            };
            0
        }
        Err(fault) => fault.number(),
    }
}

/// Opens a closed handle as a cursor over the pairs that a store has now, keys rising.
#[unsafe(no_mangle)]
pub extern "C" fn fkv_c_list(alloc: Global, store: &mut Handle, cursor: &mut Handle) -> u32
    ensures same { LeadsAsMuch store.old.held store.new.held }
    ensures kind { kind_of store.new.held ≡ kind_of store.old.held }
    ensures set { set_of store.new.held ≡ set_of store.old.held }
    ensures opened { result ≡ 0 → kind_of cursor.new.held ≡ cursor_of (kind_of store.old.held) }
    ensures pairs { result ≡ 0 → LeadsAsMuch store.old.held cursor.new.held }
    ensures store { result ≡ 0 → IsStore (kind_of store.old.held) }
    ensures was { result ≡ 0 → cursor.old.held ≡ None }
    ensures status { IsListStatus cursor.old.held (kind_of store.old.held) (RefusesList store.old.held store.new.held) result }
    ensures left { result ≢ 0 → cursor.new.held ≡ cursor.old.held }
{
    match list(alloc, store, cursor) {
        Ok(()) => 0,
        Err(fault) => fault.number(),
    }
}

/// Tells the least pair that a cursor over numbers still has, which it has no more then, or that it has none.
#[unsafe(no_mangle)]
pub extern "C" fn fkv_c_next(alloc: Global, cursor: &mut Handle, pair: &mut Pair) -> u32
    ensures told { result ≡ 0 → IsNextTold (pairs_of cursor.old.held) (pairs_of cursor.new.held) pair.new }
    ensures least { result ≡ 0 → FirstIsLeast (pairs_of cursor.old.held) }
    ensures kind { kind_of cursor.new.held ≡ kind_of cursor.old.held }
    ensures cursor { result ≡ 0 → kind_of cursor.old.held ≡ Cursor }
    ensures status { result ≡ next_status (kind_of cursor.old.held) }
    ensures left { result ≢ 0 → (cursor.new.held ≡ cursor.old.held) × (pair.new ≡ pair.old) }
{
    match next(alloc, cursor) {
        Ok(came) => {
            *pair = Pair::of(came);
            0
        }
        Err(fault) => fault.number(),
    }
}

/// Closes an open handle, of a store or of a cursor, and frees what it led to.
#[unsafe(no_mangle)]
pub extern "C" fn fkv_c_close(alloc: Global, handle: &mut Handle) -> u32
    ensures closed { handle.new.held ≡ None }
    ensures status { result ≡ close_status handle.old.held }
    ensures told { result ≢ 0 → (handle.old.held ≡ None) × (result ≡ 32) }
{
    match close(alloc, handle) {
        Ok(()) => 0,
        Err(fault) => fault.number(),
    }
}

/// Writes the name of a status into these bytes, as far as there is room, and zeros behind it.
#[unsafe(no_mangle)]
pub extern "C" fn fkv_c_name(status: u32, text: &mut [u8])
    ensures { length text.new ≡ length text.old }
{
    let name = status_name(status).as_bytes();
    let size = name.len().min(text.len());
    let (front, back) = text.split_at_mut(size);
    front.copy_from_slice(&name[..size]);
    back.fill(0);
}
