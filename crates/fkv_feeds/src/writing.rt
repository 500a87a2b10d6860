//! Writing a table out.
ghost use Rattle.std.specs.Prelude.{◌≡◌, ◌⊎◌, ◌∷◌, ◌++◌, [], ℕ, List, true, false, Err, IfOk, IfErr, OnOk, OnErr};
ghost use Rattle.fkv_functions.specs.declared.names.Name.{Name};
ghost use Rattle.std.specs.Io.KnownBytes.{Appends};
ghost use Rattle.csv.specs.Quoting.{needs_byte};
ghost use Rattle.csv.specs.Writing.{default_writer, escaped, field_text, fields_text, needs_quotes, quoted};
ghost use Rattle.fkv_streams.specs.Counting.{CountsOnly, one_more};
ghost use Rattle.fkv_streams.specs.Streams.{AppendsPrefix, PassesOn};
ghost use Rattle.fkv_feeds.specs.Writing.{IsUnwritten, fields_of, pair_text, table_text};

use crate::shown::RowFields;
use fkv_functions::{Name, Refused};
use fkv_runs::{Pairs, Table};
use fkv_spills::ReadPairs;
use fkv_streams::{Sink, WriteBuffer};
use itoa::Buffer;
use std::alloc::Global;

/// The bytes that are gathered before they are written.
const ROOM: usize = 65_536;

/// Whether a byte calls for quotes round its field.
fn calls_for_quotes(byte: u8) -> bool
    ensures { result ≡ needs_byte default_writer byte }
{
    byte == b',' || byte == b'"' || byte == b'\r' || byte == b'\n'
}

/// Whether a field is put in quotes.
fn is_quoted(field: &[u8]) -> bool
    ensures { result ≡ needs_quotes default_writer field.now }
{
    for byte in field {
        if calls_for_quotes(*byte) {
            return true;
        }
    }
    false
}

/// Puts a byte of a field in quotes. Refused as [`WriteBuffer::put`].
fn put_byte<W: Sink>(buffer: &mut WriteBuffer, sink: &mut W, byte: u8) -> Result<(), Refused>
    ensures ok { OnOk result (PassesOn (W.contents sink.old) (W.contents sink.new) buffer.new
        (buffer.old ++ escaped default_writer (byte ∷ []))) }
    ensures refused { OnErr result (AppendsPrefix (W.contents sink.old) (W.contents sink.new)
        (buffer.old ++ escaped default_writer (byte ∷ []))) }
    ensures only { IfErr result (λ refused. refused ≡ Refused.Unwritable) }
    ensures counted { CountsOnly Refused.Unwritable result (W.failures sink.old) (W.failures sink.new) }
{
    if byte == b'"' {
        return buffer.put(sink, &[byte, byte]);
    }
    buffer.put(sink, &[byte])
}

/// Puts the bytes of a field in quotes, and the quote behind them. Refused as [`WriteBuffer::put`].
fn put_escaped<W: Sink>(buffer: &mut WriteBuffer, sink: &mut W, field: &[u8]) -> Result<(), Refused>
    ensures ok { OnOk result (PassesOn (W.contents sink.old) (W.contents sink.new) buffer.new
        (buffer.old ++ (escaped default_writer field.now ++ 34 ∷ []))) }
    ensures refused { OnErr result (AppendsPrefix (W.contents sink.old) (W.contents sink.new)
        (buffer.old ++ (escaped default_writer field.now ++ 34 ∷ []))) }
    ensures only { IfErr result (λ refused. refused ≡ Refused.Unwritable) }
    ensures counted { CountsOnly Refused.Unwritable result (W.failures sink.old) (W.failures sink.new) }
{
    for byte in field {
        match put_byte(buffer, sink, *byte) {
            Ok(()) => {}
            Err(refused) => return Err(refused),
        }
    }
    buffer.put(sink, b"\"")
}

/// Puts a field as `csv` writes it: in quotes where a byte calls for them. Refused as [`WriteBuffer::put`].
fn put_field<W: Sink>(buffer: &mut WriteBuffer, sink: &mut W, field: &[u8]) -> Result<(), Refused>
    ensures ok { OnOk result (PassesOn (W.contents sink.old) (W.contents sink.new) buffer.new
        (buffer.old ++ field_text default_writer field.now)) }
    ensures refused { OnErr result (AppendsPrefix (W.contents sink.old) (W.contents sink.new)
        (buffer.old ++ field_text default_writer field.now)) }
    ensures only { IfErr result (λ refused. refused ≡ Refused.Unwritable) }
    ensures counted { CountsOnly Refused.Unwritable result (W.failures sink.old) (W.failures sink.new) }
{
    if !is_quoted(field) {
        return buffer.put(sink, field);
    }
    match buffer.put(sink, b"\"") {
        Ok(()) => put_escaped(buffer, sink, field),
        Err(refused) => Err(refused),
    }
}

/// Puts a comma, and a field behind it. Refused as [`WriteBuffer::put`].
fn put_next<W: Sink>(buffer: &mut WriteBuffer, sink: &mut W, field: &[u8]) -> Result<(), Refused>
    ensures ok { OnOk result (PassesOn (W.contents sink.old) (W.contents sink.new) buffer.new
        (buffer.old ++ 44 ∷ field_text default_writer field.now)) }
    ensures refused { OnErr result (AppendsPrefix (W.contents sink.old) (W.contents sink.new)
        (buffer.old ++ 44 ∷ field_text default_writer field.now)) }
    ensures only { IfErr result (λ refused. refused ≡ Refused.Unwritable) }
    ensures counted { CountsOnly Refused.Unwritable result (W.failures sink.old) (W.failures sink.new) }
{
    match buffer.put(sink, b",") {
        Ok(()) => put_field(buffer, sink, field),
        Err(refused) => Err(refused),
    }
}

/// Puts the fields of a value, each behind a comma. Refused as [`WriteBuffer::put`].
fn put_value<V: RowFields, W: Sink>(
    buffer: &mut WriteBuffer,
    sink: &mut W,
    value: &V,
) -> Result<(), Refused>
    ensures ok { OnOk result (PassesOn (W.contents sink.old) (W.contents sink.new) buffer.new
        (buffer.old ++ fields_text default_writer (fields_of V.FIELDS V.field_at value.now))) }
    ensures refused { OnErr result (AppendsPrefix (W.contents sink.old) (W.contents sink.new)
        (buffer.old ++ fields_text default_writer (fields_of V.FIELDS V.field_at value.now))) }
    ensures only { IfErr result (λ refused. refused ≡ Refused.Unwritable) }
    ensures counted { CountsOnly Refused.Unwritable result (W.failures sink.old) (W.failures sink.new) }
{
    let mut digits = Buffer::new();
    for place in 0..V::FIELDS {
        match put_next(buffer, sink, value.field(place, &mut digits)) {
            Ok(()) => {}
            Err(refused) => return Err(refused),
        }
    }
    Ok(())
}

/// Puts the fields of a value, each behind a comma, and what ends a row. Refused as [`WriteBuffer::put`].
fn put_ended<V: RowFields, W: Sink>(
    buffer: &mut WriteBuffer,
    sink: &mut W,
    value: &V,
) -> Result<(), Refused>
    ensures ok { OnOk result (PassesOn (W.contents sink.old) (W.contents sink.new) buffer.new
        (buffer.old ++ (fields_text default_writer (fields_of V.FIELDS V.field_at value.now) ++ 10 ∷ []))) }
    ensures refused { OnErr result (AppendsPrefix (W.contents sink.old) (W.contents sink.new)
        (buffer.old ++ (fields_text default_writer (fields_of V.FIELDS V.field_at value.now) ++ 10 ∷ []))) }
    ensures only { IfErr result (λ refused. refused ≡ Refused.Unwritable) }
    ensures counted { CountsOnly Refused.Unwritable result (W.failures sink.old) (W.failures sink.new) }
{
    match put_value(buffer, sink, value) {
        Ok(()) => buffer.put(sink, b"\n"),
        Err(refused) => Err(refused),
    }
}

/// Puts a row: a key and its value. Refused as [`WriteBuffer::put`].
fn put_row<V: RowFields, W: Sink>(
    buffer: &mut WriteBuffer,
    sink: &mut W,
    pair: &(Name, V),
) -> Result<(), Refused>
    ensures ok { OnOk result (PassesOn (W.contents sink.old) (W.contents sink.new) buffer.new
        (buffer.old ++ pair_text (fields_of V.FIELDS V.field_at) pair.now)) }
    ensures refused { OnErr result (AppendsPrefix (W.contents sink.old) (W.contents sink.new)
        (buffer.old ++ pair_text (fields_of V.FIELDS V.field_at) pair.now)) }
    ensures only { IfErr result (λ refused. refused ≡ Refused.Unwritable) }
    ensures counted { CountsOnly Refused.Unwritable result (W.failures sink.old) (W.failures sink.new) }
{
    match put_field(buffer, sink, pair.0.bytes()) {
        Ok(()) => put_ended(buffer, sink, &pair.1),
        Err(refused) => Err(refused),
    }
}

/// Writes a table, a row for each key, in order, and lets it out: the key, and behind it the fields of its value. Its rows are gathered in 64 KiB: no text of all of them is made.
///
/// # Errors
///
/// `NoMemory`, and then nothing was written; `Unwritable` where the writer fails or takes no more, and then the bytes
/// that it took are the first of the table's text.
pub fn write_table<V: RowFields + Copy, W: Sink>(
    alloc: Global,
    table: &Table<V>,
    writer: &mut W,
) -> Result<(), Refused>
    ensures ok { OnOk result
        (Appends (W.contents writer.old) (W.contents writer.new) (table_text (fields_of V.FIELDS V.field_at) table.now)) }
    ensures unwritable { result ≡ Err Refused.Unwritable
        → AppendsPrefix (W.contents writer.old) (W.contents writer.new) (table_text (fields_of V.FIELDS V.field_at) table.now) }
    ensures nothing { result ≡ Err Refused.NoMemory → W.contents writer.new ≡ W.contents writer.old }
    ensures only { IfErr result (λ e. (e ≡ Refused.NoMemory) ⊎ (e ≡ Refused.Unwritable)) }
    ensures out { OnOk result (W.is_out writer.new ≡ true) }
    ensures counted { CountsOnly Refused.Unwritable result (W.failures writer.old) (W.failures writer.new) }
{
    let mut pairs = match table.pairs(alloc) {
        Ok(pairs) => pairs,
        Err(refused) => return Err(refused),
    };
    let mut buffer = match WriteBuffer::new(alloc, ROOM) {
        Ok(buffer) => buffer,
        Err(refused) => return Err(refused),
    };
    while let Some(pair) = pairs.next() {
        match put_row(&mut buffer, writer, &pair) {
            Ok(()) => {}
            Err(refused) => return Err(refused),
        }
    }
    buffer.finish(writer)
}

/// Puts the row of the next pair, and says whether there was one. Refused as [`WriteBuffer::put`], and as a pair is.
fn put_more<V: RowFields + Copy, P: ReadPairs<Value = V>, W: Sink>(
    buffer: &mut WriteBuffer,
    pairs: &mut P,
    sink: &mut W,
) -> Result<bool, Refused>
    ensures ok { (xs : List (Name × V)) → P.holds pairs.old xs → IfOk result (λ more. (left : List (Name × V)) × P.holds pairs.new left
        × ((text : List ℕ) × PassesOn (W.contents sink.old) (W.contents sink.new) buffer.new (buffer.old ++ text)
        × (text ++ table_text (fields_of V.FIELDS V.field_at) left ≡ table_text (fields_of V.FIELDS V.field_at) xs))
        × (more ≡ false → left ≡ [])) }
    ensures front { (xs : List (Name × V)) → P.holds pairs.old xs → OnErr result (AppendsPrefix (W.contents sink.old)
        (W.contents sink.new) (buffer.old ++ table_text (fields_of V.FIELDS V.field_at) xs)) }
    ensures rows { (some : List (Name × V))
        × OnOk result (PassesOn (W.contents sink.old) (W.contents sink.new) buffer.new
        (buffer.old ++ table_text (fields_of V.FIELDS V.field_at) some))
        × OnErr result (AppendsPrefix (W.contents sink.old) (W.contents sink.new)
        (buffer.old ++ table_text (fields_of V.FIELDS V.field_at) some)) }
    ensures steady { OnOk result (W.failures sink.new ≡ W.failures sink.old) }
    ensures told { IfErr result (λ e. ((e ≡ Refused.Unwritable) × (W.failures sink.new ≡ one_more (W.failures sink.old)))
        ⊎ ((was : P) × (is : P) × P.refuses was is e × (W.failures sink.new ≡ W.failures sink.old))) }
{
    let pair = match pairs.next() {
        Ok(Some(pair)) => pair,
        Ok(None) => return Ok(false),
        Err(refused) => return Err(refused),
    };
    match put_row(buffer, sink, &pair) {
        Ok(()) => Ok(true),
        Err(refused) => Err(refused),
    }
}

/// Writes the pairs that are still to come, a row for each, in order, and lets them out, as [`write_table`] writes a table.
///
/// # Errors
///
/// `NoMemory`, and then nothing was written; `Unwritable` where the writer fails or takes no more; `Worn` after 2^64 - 1 rows; and
/// what a pair is refused by. The bytes that the writer took are the first of the table's text.
pub fn write_pairs<V: RowFields + Copy, P: ReadPairs<Value = V>, W: Sink>(
    alloc: Global,
    pairs: &mut P,
    writer: &mut W,
) -> Result<(), Refused>
    ensures ok { (xs : List (Name × V)) → P.holds pairs.old xs → OnOk result
        (Appends (W.contents writer.old) (W.contents writer.new) (table_text (fields_of V.FIELDS V.field_at) xs)) }
    ensures prefix { (xs : List (Name × V)) → P.holds pairs.old xs → OnErr result
        (AppendsPrefix (W.contents writer.old) (W.contents writer.new) (table_text (fields_of V.FIELDS V.field_at) xs)) }
    // and whatever the pairs are, they are written as rows
    ensures rows { (xs : List (Name × V))
        × OnOk result
        (Appends (W.contents writer.old) (W.contents writer.new) (table_text (fields_of V.FIELDS V.field_at) xs))
        × OnErr result
        (AppendsPrefix (W.contents writer.old) (W.contents writer.new) (table_text (fields_of V.FIELDS V.field_at) xs)) }
    ensures told { IfErr result (IsUnwritten P.refuses (W.contents writer.old) (W.contents writer.new)
        (W.failures writer.old) (W.failures writer.new)) }
    ensures steady { OnOk result (W.failures writer.new ≡ W.failures writer.old) }
    ensures out { OnOk result (W.is_out writer.new ≡ true) }
{
    let mut buffer = match WriteBuffer::new(alloc, ROOM) {
        Ok(buffer) => buffer,
        Err(refused) => return Err(refused),
    };
    let mut more = true;
    let mut room = u64::MAX;
    'rows: while more && room > 0 {
        room -= 1;
        more = match put_more(&mut buffer, pairs, writer) {
            Ok(more) => more,
            Err(refused) => return Err(refused),
        };
    }
    if more {
        return Err(Refused::Worn);
    }
    buffer.finish(writer)
}
