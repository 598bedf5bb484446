//! Sets of replicas.

ghost use Rattle.std.specs.Prelude.{◌≡◌, ◌≤◌, ◌<◌, ℕ, ◌||◌, ◌==◌, [], length, IsTrue, IsFalse, IfSome, IfNone};
ghost use Rattle.nz_math.specs.Count.{both, is_in, IsChoice};

use std::marker::Model;

/// A set of replicas, by their numbers 0 to 8.
#[derive(Drop)]
pub struct ReplicaSet {
    members: [bool; 9],
}

impl Model for ReplicaSet {
    ghost use Rattle.std.specs.Prelude.{ℕ, List, false, slice_index_or};
    ghost use Rattle.nz_math.specs.Count.{members_below};

    ghost Value = { List ℕ };

    ghost view = { λ s. members_below 9 (λ x. slice_index_or s.members x false) };
}

impl ReplicaSet {
    /// The empty set.
    pub fn new() -> ReplicaSet
        ensures { result ≡ [] }
    {
        ReplicaSet {
            members: [false; 9],
        }
    }

    /// Puts a replica into the set.
    pub fn insert(&mut self, r: u8)
        requires { r ≤ 8 }
        ensures { (x : ℕ) → is_in self.new x ≡ ((r == x) || is_in self.old x) }
    {
        self.members[r as usize] = true;
    }

    /// Whether the replica is a member.
    pub fn contains(&self, r: u8) -> bool
        ensures member { result ≡ is_in self.now r }
        ensures numbers { IsChoice 9 self.now }
    {
        (r as usize) < self.members.len() && self.members[r as usize]
    }

    /// How many members there are.
    pub fn count(&self) -> u8
        ensures size { result ≡ length self.now }
        ensures numbers { IsChoice 9 self.now }
    {
        let mut count = 0;
        for r in 0..9 {
            if self.contains(r) {
                count += 1;
            }
        }
        count
    }

    /// The least member of both sets.
    pub fn common(&self, other: &ReplicaSet) -> Option<u8>
        ensures none { IfNone result ((x : ℕ) → IsFalse (both (is_in self.now) (is_in other.now) x)) }
        ensures member { IfSome result (λ r. IsTrue (both (is_in self.now) (is_in other.now) r)) }
        ensures least { IfSome result (λ r. (x : ℕ) → x < r → IsFalse (both (is_in self.now) (is_in other.now) x)) }
    {
        for r in 0..9 {
            if self.contains(r) && other.contains(r) {
                return Some(r);
            }
        }
        None
    }
}
