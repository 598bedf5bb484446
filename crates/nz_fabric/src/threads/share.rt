//! Shares of the ledger that counts open batches.

ghost use Rattle.std.specs.Prelude.{◌≡◌, ◌+◌, ◌<◌};

use crate::threads::run_name::RunName;
use std::marker::Model;
use std::sync::ledger;

/// Some of the parts of the ledger of open batches, with how many batches are open on them.
#[derive(Drop)]
pub struct Share<N: RunName> {
    pub(crate) held: ledger::Share<N>,
}

impl<N: RunName> Model for Share<N> {
    ghost use Rattle.std.specs.Prelude.{◌<◌};
    ghost use Rattle.nz_fabric.specs.threads.Shared.{Holding};

    ghost Value = { Holding };

    ghost view = { λ s. record { parts = s.held.parts; amount = s.held.amount } };

    ghost invariant = { λ s. 0 < s.held.parts };
}

impl<N: RunName> Share<N> {
    /// A further share of one part.
    pub fn split(&mut self) -> Share<N>
        requires { 1 < self.old.parts }
        ensures parts { (self.new.parts + 1 ≡ self.old.parts) × (result.parts ≡ 1) }
        ensures amount { (self.new.amount ≡ self.old.amount) × (result.amount ≡ 0) }
    {
        let held = self.held.split_off(1, 0);
        Share { held }
    }

    /// The parts and the amounts of both in one share.
    pub fn join(&mut self, other: Share<N>)
        ensures parts { self.new.parts ≡ self.old.parts + other.parts }
        ensures amount { self.new.amount ≡ self.old.amount + other.amount }
    {
        let Share { held } = other;
        self.held.merge(held);
    }
}
