//! The size of a cluster, its quorums and its leaders.

ghost use Rattle.std.specs.Prelude.{◌≡◌, ◌<◌, ◌≤◌, ◌↔◌, IsSome, IfSome};
ghost use Rattle.nz_base.specs.Cluster.{replica_count, fast_size, slow_size, leader_of};
ghost use Rattle.nz_base.specs.declared.limits.TheConstants.{MAX_F};

use super::limits::MAX_F;
use std::marker::Model;

/// A cluster that withstands f replicas out of order at a time, f from 1 to `MAX_F`. A clause sees f.
#[derive(Clone, Copy, Debug, PartialEq, Eq)]
pub struct Cluster {
    f: u8,
}

impl Model for Cluster {
    ghost use Rattle.nz_base.specs.declared.limits.TheConstants.{MAX_F};
    ghost use Rattle.std.specs.Prelude.{ℕ, ◌≤◌};

    ghost Value = { ℕ };

    ghost view = { λ c. c.f };

    ghost invariant = { λ c. (1 ≤ c.f) × (c.f ≤ MAX_F) };

    ghost inverse = { λ f. record { f = f } };
}

impl Cluster {
    pub fn new(f: u8) -> Option<Cluster>
        ensures range { IsSome result ↔ ((1 ≤ f) × (f ≤ MAX_F)) }
        ensures value { IfSome result (λ cluster. cluster ≡ f) }
    {
        if 1 <= f && u32::from(f) <= MAX_F {
            Some(Cluster { f })
        } else {
            None
        }
    }

    pub fn f(&self) -> u8
        ensures value { result ≡ self.now }
        ensures least { 1 ≤ result }
        ensures most { result ≤ MAX_F }
    {
        self.f
    }

    /// How many replicas there are.
    pub fn n(&self) -> u8
        ensures { result ≡ replica_count self.now }
    {
        2 * self.f + 1
    }

    /// How many replicas a fast quorum has, the leader among them.
    pub fn fast(&self) -> u8
        ensures { result ≡ fast_size self.now }
    {
        self.f + self.f.div_ceil(2) + 1
    }

    /// How many replicas a slow quorum has, the leader among them.
    pub fn slow(&self) -> u8
        ensures { result ≡ slow_size self.now }
    {
        self.f + 1
    }

    /// The number of the replica that leads in this view.
    pub fn leader(&self, view: u64) -> u8
        ensures leader { result ≡ leader_of self.now view }
        ensures replica { result < replica_count self.now }
    {
        (view % u64::from(self.n())) as u8
    }
}
