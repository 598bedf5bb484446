//! A sink in memory.

ghost use Rattle.std.specs.Prelude.{◌≡◌, ◌<◌, ◌≤◌, ◌↔◌, ◌++◌, ◌-◌, ◌⊎◌, [], Some, length, take, min, IsErr, IfOk, OnOk, OnErr, Contains};
ghost use Rattle.nz_edge.specs.Faults.{Rose, one_fault_more};
ghost use Rattle.nz_edge.specs.Exposed.{Gains};

use super::calls::{CallList, Calls};
use super::sink::Sink;
use super::source::Failed;
use nz_base::NoMemory;
use std::alloc::Global;
use std::marker::Model;

/// A sink that keeps what it takes in memory, and fails at the calls that it was given.
#[derive(Debug, Drop)]
pub struct MemSink {
    bytes: Vec<u8>,
    room: usize,
    piece: usize,
    calls: Calls,
    faults: u64,
}

impl Model for MemSink {
    ghost use Rattle.std.specs.Prelude.{◌<◌, ◌≤◌, vec_len, vec_capacity};
    ghost use Rattle.nz_edge.specs.Memory.{SinkState};

    ghost Value = { SinkState };

    ghost view = { λ s. record { bytes = s.bytes.items; room = s.room; piece = s.piece; fail = s.calls.fail; made = s.calls.made; faulted = s.faults } };

    ghost invariant = { λ s. (vec_len s.bytes ≤ s.room) × (s.room ≤ vec_capacity s.bytes) × (0 < s.piece) };
}

impl MemSink {
    /// Takes at most `piece` bytes a write and `room` bytes in all, for which it finds the memory here.
    /// Writes and flushes are numbered together, from 1; those in `fail` answer `Failed`.
    pub fn new(
        alloc: Global,
        room: usize,
        piece: usize,
        fail: CallList,
    ) -> Result<MemSink, NoMemory>
        requires { 0 < piece }
        ensures { IfOk result (λ sink. sink ≡ record { bytes = []; room = room; piece = piece; fail = fail; made = 0; faulted = 0 }) }
    {
        Ok(MemSink {
            bytes: Vec::with_capacity(alloc, room)?,
            room,
            piece,
            calls: Calls::new(fail),
            faults: 0,
        })
    }

    /// What was taken.
    pub fn bytes(&self) -> &[u8]
        ensures { result.now ≡ self.now.bytes }
    {
        &self.bytes
    }
}

impl Sink for MemSink {
    ghost taken = { λ s. Some s.bytes };

    ghost faults = { λ s. s.faulted };

    fn write(&mut self, piece: &[u8]) -> Result<usize, Failed>
        requires { 0 < length piece.now }
        ensures least { IfOk result (λ count. 1 ≤ count) }
        ensures most { IfOk result (λ count. count ≤ length piece.now) }
        ensures took { IfOk result (λ count. Gains (Some self.old.bytes) (Some self.new.bytes) (take count piece.now)) }
        ensures failed { OnErr result (Rose self.old.faulted self.new.faulted) }
        ensures kept { OnErr result (self.new.bytes ≡ self.old.bytes) }
        ensures counts { self.old.faulted ≤ self.new.faulted }

        // What this sink takes beyond the promise of every sink.
        ensures fails { IsErr result ↔ (Contains self.old.fail (one_fault_more self.old.made) ⊎ (self.old.room ≤ length self.old.bytes)) }
        ensures count { IfOk result (λ count. count ≡ min (min (self.old.room - length self.old.bytes) self.old.piece) (length piece.now)) }
        ensures ok { IfOk result (λ count. self.new ≡ record self.old { bytes = self.old.bytes ++ take count piece.now; made = one_fault_more self.old.made }) }
        ensures err { OnErr result (self.new ≡ record self.old { made = one_fault_more self.old.made; faulted = one_fault_more self.old.faulted }) }
    {
        let fails = self.calls.next_fails();
        let count = (self.room - self.bytes.len())
            .min(self.piece)
            .min(piece.len());
        if fails || count == 0 {
            self.faults = self.faults.saturating_add(1);
            return Err(Failed);
        }
        self.bytes.extend_from_slice(&piece[..count]).unwrap();
        Ok(count)
    }

    fn flush(&mut self) -> Result<(), Failed>
        ensures kept { self.new.bytes ≡ self.old.bytes }
        ensures failed { OnErr result (Rose self.old.faulted self.new.faulted) }
        ensures counts { self.old.faulted ≤ self.new.faulted }

        // What this sink does beyond the promise of every sink.
        ensures fails { IsErr result ↔ Contains self.old.fail (one_fault_more self.old.made) }
        ensures ok { OnOk result (self.new ≡ record self.old { made = one_fault_more self.old.made }) }
        ensures err { OnErr result (self.new ≡ record self.old { made = one_fault_more self.old.made; faulted = one_fault_more self.old.faulted }) }
    {
        if self.calls.next_fails() {
            self.faults = self.faults.saturating_add(1);
            return Err(Failed);
        }
        Ok(())
    }
}
