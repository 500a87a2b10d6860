//! Bytes that are gathered before they are written.
ghost use Rattle.std.specs.Prelude.{◌≡◌, ◌+◌, ◌≤◌, ◌++◌, [], true, length, IfOk, IfErr, OnOk, OnErr};
ghost use Rattle.std.specs.Io.KnownBytes.{Appends};
ghost use Rattle.fkv_streams.specs.Counting.{CountsOnly};
ghost use Rattle.fkv_streams.specs.Streams.{AppendsPrefix, PassesOn};

use crate::sinks::Sink;
use crate::writing::{write_all, write_out};
use fkv_functions::Refused;
use std::alloc::Global;
use std::marker::Model;

/// Bytes on their way to a sink, in room that is made once: they are gathered until it is full, and then written. A contract sees
/// the bytes that it holds back.
///
/// After a refusal nothing is said of what it holds back, and it is to be used no more.
#[derive(Drop)]
pub struct WriteBuffer {
    bytes: Vec<u8>,
    /// How many bytes it holds back at most.
    room: usize,
}

impl Model for WriteBuffer {
    ghost use Rattle.std.specs.Prelude.{◌≤◌, ℕ, List};
    ghost use Rattle.std.specs.Vec.{vec_len, vec_capacity};

    ghost Value = { List ℕ };

    ghost view = { λ b. b.bytes.items };

    ghost invariant = { λ b. (vec_len b.bytes ≤ b.room) × (b.room ≤ vec_capacity b.bytes) };
}

impl WriteBuffer {
    /// A buffer with room for so many bytes. Refused: `NoMemory`.
    pub fn new(alloc: Global, room: usize) -> Result<WriteBuffer, Refused>
        ensures ok { IfOk result (λ buffer. buffer ≡ []) }
        ensures only { IfErr result (λ refused. refused ≡ Refused.NoMemory) }
    {
        match Vec::with_capacity(alloc, room) {
            Ok(bytes) => Ok(WriteBuffer { bytes, room }),
            Err(_) => Err(Refused::NoMemory),
        }
    }

    /// Writes what it holds back.
    fn empty<W: Sink>(&mut self, sink: &mut W) -> Result<(), Refused>
        ensures ok { OnOk result (Appends (W.contents sink.old) (W.contents sink.new) self.old) }
        ensures none { OnOk result (self.new ≡ []) }
        ensures refused { OnErr result (AppendsPrefix (W.contents sink.old) (W.contents sink.new) self.old) }
        ensures only { IfErr result (λ refused. refused ≡ Refused.Unwritable) }
        ensures counted { CountsOnly Refused.Unwritable result (W.failures sink.old) (W.failures sink.new) }
    {
        match write_all(sink, self.bytes.as_slice()) {
            Ok(()) => {
                self.bytes.clear();
                Ok(())
            }
            Err(refused) => Err(refused),
        }
    }

    /// Writes what it holds back and then these bytes.
    fn put_behind<W: Sink>(&mut self, sink: &mut W, bytes: &[u8]) -> Result<(), Refused>
        ensures ok { OnOk result (PassesOn (W.contents sink.old) (W.contents sink.new) self.new (self.old ++ bytes.now)) }
        ensures refused { OnErr result
            (AppendsPrefix (W.contents sink.old) (W.contents sink.new) (self.old ++ bytes.now)) }
        ensures only { IfErr result (λ refused. refused ≡ Refused.Unwritable) }
        ensures counted { CountsOnly Refused.Unwritable result (W.failures sink.old) (W.failures sink.new) }
    {
        match self.empty(sink) {
            Ok(()) => {}
            Err(refused) => return Err(refused),
        }
        if bytes.len() > self.room {
            return write_all(sink, bytes);
        }
        let Ok(()) = self.bytes.extend_from_slice(bytes) else {
            unreachable!()
        };
        Ok(())
    }

    /// Puts these bytes behind those that it holds back, and writes what it held where there is no room for them. It never
    /// allocates.
    ///
    /// # Errors
    ///
    /// `Unwritable` where the sink failed or takes no more: then the bytes that it took are the first of all these.
    pub fn put<W: Sink>(&mut self, sink: &mut W, bytes: &[u8]) -> Result<(), Refused>
        ensures ok { OnOk result (PassesOn (W.contents sink.old) (W.contents sink.new) self.new (self.old ++ bytes.now)) }
        ensures refused { OnErr result
            (AppendsPrefix (W.contents sink.old) (W.contents sink.new) (self.old ++ bytes.now)) }
        ensures only { IfErr result (λ refused. refused ≡ Refused.Unwritable) }
        ensures counted { CountsOnly Refused.Unwritable result (W.failures sink.old) (W.failures sink.new) }
    {
        if bytes.len() > self.room - self.bytes.len() {
            return self.put_behind(sink, bytes);
        }
        let Ok(()) = self.bytes.extend_from_slice(bytes) else {
            unreachable!()
        };
        Ok(())
    }

    /// Writes what it holds back, and lets out all that was written. `Unwritable` as [`put`](WriteBuffer::put).
    pub fn finish<W: Sink>(self, sink: &mut W) -> Result<(), Refused>
        ensures ok { OnOk result (Appends (W.contents sink.old) (W.contents sink.new) self) }
        ensures refused { OnErr result (AppendsPrefix (W.contents sink.old) (W.contents sink.new) self) }
        ensures only { IfErr result (λ refused. refused ≡ Refused.Unwritable) }
        ensures out { OnOk result (W.is_out sink.new ≡ true) }
        ensures counted { CountsOnly Refused.Unwritable result (W.failures sink.old) (W.failures sink.new) }
    {
        write_out(sink, self.bytes.as_slice())
    }
}
