//! Reading a feed into what takes its rows.
ghost use Rattle.std.specs.Prelude.{◌≡◌, ◌≤◌, ◌⊎◌, ◌++◌, ℤ, List, length, OnOk, IfOk, IfErr, option_map};
ghost use Rattle.csv.specs.Reading.{source_of};
ghost use Rattle.fkv_functions.specs.declared.names.Name.{Name};
ghost use Rattle.fkv_feed_rows.specs.Feeds.{IsFeed, TellsUnread, without_mark};
ghost use Rattle.fkv_feed_rows.specs.Watching.{IsFresh, AreRowsIn, TellsOf, count_of};

use crate::rows::row_of;
use crate::sinks::RowSink;
use crate::watching::{Since, Watched};
use csv::{ByteRecord, Reader, ReaderBuilder};
use fkv_functions::Refused;
use fkv_streams::Source;
use std::alloc::Global;
use std::io::Read;
use std::marker::Brand;

/// A stream that was read, whether it failed, and how the reading ended.
#[derive(Drop)]
struct ReadStream<'a, S> {
    source: &'a mut S,
    failed: bool,
    told: Result<u64, Refused>,
}

/// Hands on each record of a reader that is at its start as a row. Answers how many there are. Refused: `BadRow`, `Unreadable` where there are more
/// than `limit` records, as the sink refuses a row, and `NoMemory` where the reader underneath fails too.
fn add_rows<R: Read, K: RowSink>(
    alloc: Global,
    reader: &mut Reader<R>,
    feed: u64,
    limit: u64,
    sink: &mut K,
) -> Result<u64, Refused>
    requires fresh { IsFresh reader.old }
    requires stands { (rows : List (Name × ℤ)) × K.stands sink.old rows }
    ensures ok { IfOk result (λ count. (before : List (Name × ℤ)) → K.stands sink.old before
        → (rows : List (Name × ℤ)) × AreRowsIn limit (source_of R.remaining reader.old) rows
        × K.stands sink.new (before ++ rows) × (count ≡ length rows)) }
    ensures within { IfOk result (λ count. count ≤ limit) }
    ensures kept { K.kept sink.new ≡ K.kept sink.old }
    ensures told { IfErr result (λ e. K.fault e ⊎ TellsOf feed limit (source_of R.remaining reader.old) e) }
{
    let mut fields = ByteRecord::new(alloc);
    for count in 0..limit {
        match reader.read_byte_record(&mut fields) {
            Ok(true) => {}
            Ok(false) => return Ok(count),
            Err(_) => return Err(Refused::NoMemory),
        }
        let Some((key, amount)) = row_of(&fields) else {
            return Err(Refused::BadRow {
                feed,
                row: count + 1,
            });
        };
        match sink.add(&key, amount) {
            Ok(()) => {}
            Err(refused) => return Err(refused),
        }
    }
    match reader.read_byte_record(&mut fields) {
        Ok(true) => Err(Refused::Unreadable { number: feed }),
        Ok(false) => Ok(limit),
        Err(_) => Err(Refused::NoMemory),
    }
}

/// Reads a feed, by a stream that is lent and comes back.
fn read_lent<'a, S: Source, B: Since, K: RowSink>(
    alloc: Global,
    source: &'a mut S,
    feed: u64,
    limit: u64,
    sink: &mut K,
) -> ReadStream<'a, S>
    requires name { source.ghost_name ≡ B.name }
    requires count { S.failures source.old ≡ B.count }
    requires stands { (rows : List (Name × ℤ)) × K.stands sink.old rows }
    ensures same { result.source.ghost_name ≡ source.entry.ghost_name }
    ensures counted { S.failures result.source.now ≡ count_of result.failed (S.failures source.old) }
    ensures ok { IfOk result.told (λ count. (before : List (Name × ℤ)) → K.stands sink.old before
        → (rows : List (Name × ℤ)) × IsFeed limit (S.remaining source.old) rows
        × K.stands sink.new (before ++ rows) × (count ≡ length rows)) }
    ensures within { IfOk result.told (λ count. count ≤ limit) }
    ensures kept { K.kept sink.new ≡ K.kept sink.old }
    ensures told { IfErr result.told
        (λ e. K.fault e ⊎ TellsOf feed limit (option_map without_mark (S.remaining source.old)) e) }
{
    let mut reader = ReaderBuilder::new()
        .has_headers(false)
        .flexible(true)
        .from_reader(alloc, Watched::<S, B>::new(source));
    let told = add_rows(alloc, &mut reader, feed, limit, sink);
    let Watched { source, failed, .. } = reader.into_inner();
    ReadStream {
        source,
        failed,
        told,
    }
}

/// Reads the feed of this number, counted from 1, to its end, and hands on each of its rows, in order. Answers how many
/// rows it has.
///
/// # Errors
///
/// `BadRow` with the first record that is no row, counted from 1: then those before it are rows. `Unreadable` with
/// the feed's number where its stream fails, or where it has more records than `limit`. `NoMemory`. And as the sink
/// refuses a row. The sink then stands for no rows.
pub fn read_feed<S: Source, K: RowSink>(
    alloc: Global,
    source: &mut S,
    feed: u64,
    limit: u64,
    sink: &mut K,
) -> Result<u64, Refused>
    requires { (rows : List (Name × ℤ)) × K.stands sink.old rows }
    ensures ok { IfOk result (λ count. (before : List (Name × ℤ)) → K.stands sink.old before
        → (rows : List (Name × ℤ)) × IsFeed limit (S.remaining source.old) rows
        × K.stands sink.new (before ++ rows) × (count ≡ length rows)) }
    ensures within { IfOk result (λ count. count ≤ limit) }
    ensures steady { OnOk result (S.failures source.new ≡ S.failures source.old) }
    ensures kept { K.kept sink.new ≡ K.kept sink.old }
    ensures told { IfErr result (λ e. (K.fault e × (S.failures source.new ≡ S.failures source.old))
        ⊎ TellsUnread feed limit (S.remaining source.old) (S.failures source.old) (S.failures source.new) e) }
{
    let ended = read_lent::<S, Brand, K>(alloc, source, feed, limit, sink);
    if ended.failed {
        return Err(Refused::Unreadable { number: feed });
    }
    ended.told
}
