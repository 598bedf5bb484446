//! A source in memory.

ghost use Rattle.std.specs.Prelude.{◌≡◌, ◌<◌, ◌≤◌, ◌↔◌, ◌++◌, [], Some, length, take, drop, min, IsErr, IfOk, IfSome, OnErr, Contains};
ghost use Rattle.nz_edge.specs.Faults.{Rose, one_fault_more};
ghost use Rattle.nz_edge.specs.Exposed.{Loses};

use super::calls::{CallList, Calls};
use super::source::{Failed, Source};
use nz_base::Blob;
use std::marker::Model;

/// A source over bytes in memory, which fails at the calls that it was given.
#[derive(Debug, Drop)]
pub struct MemSource {
    bytes: Blob,
    given: usize,
    piece: usize,
    calls: Calls,
    faults: u64,
}

impl Model for MemSource {
    ghost use Rattle.std.specs.Prelude.{◌<◌, ◌≤◌, length, drop};
    ghost use Rattle.nz_edge.specs.Memory.{SourceState};

    ghost Value = { SourceState };

    ghost view = { λ s. record { rest = drop s.given s.bytes; piece = s.piece; fail = s.calls.fail; made = s.calls.made; faulted = s.faults } };

    ghost invariant = { λ s. (s.given ≤ length s.bytes) × (0 < s.piece) };
}

impl MemSource {
    /// Gives at most `piece` bytes a call. The calls whose numbers, from 1, are in `fail` answer `Failed`.
    pub fn new(bytes: Blob, piece: usize, fail: CallList) -> MemSource
        requires { 0 < piece }
        ensures { result ≡ record { rest = bytes; piece = piece; fail = fail; made = 0; faulted = 0 } }
    {
        MemSource {
            bytes,
            given: 0,
            piece,
            calls: Calls::new(fail),
            faults: 0,
        }
    }
}

impl Source for MemSource {
    ghost left = { λ s. Some s.rest };

    ghost faults = { λ s. s.faulted };

    fn read(&mut self, into: &mut [u8]) -> Result<usize, Failed>
        requires { 0 < length into.old }
        ensures within { IfOk result (λ count. count ≤ length into.new) }
        ensures given { IfOk result (λ count. Loses (Some self.old.rest) (Some self.new.rest) (take count into.new)) }
        ensures end { IfOk result (λ count. count ≡ 0 → self.old.rest ≡ []) }
        ensures failed { OnErr result (Rose self.old.faulted self.new.faulted) }
        ensures kept { OnErr result (self.new.rest ≡ self.old.rest) }
        ensures counts { self.old.faulted ≤ self.new.faulted }

        // What this source gives beyond the promise of every source.
        ensures fails { IsErr result ↔ Contains self.old.fail (one_fault_more self.old.made) }
        ensures count { IfOk result (λ count. count ≡ min (min (length self.old.rest) self.old.piece) (length into.old)) }
        ensures into { IfOk result (λ count. into.new ≡ take count self.old.rest ++ drop count into.old) }
        ensures ok { IfOk result (λ count. self.new ≡ record self.old { rest = drop count self.old.rest; made = one_fault_more self.old.made }) }
        ensures err { OnErr result (self.new ≡ record self.old { made = one_fault_more self.old.made; faulted = one_fault_more self.old.faulted }) }
    {
        if self.calls.next_fails() {
            self.faults = self.faults.saturating_add(1);
            return Err(Failed);
        }
        let (_, rest) = self.bytes.as_slice().split_at(self.given);
        let count = rest.len().min(self.piece).min(into.len());
        into[..count].copy_from_slice(&rest[..count]);
        self.given += count;
        Ok(count)
    }
}
