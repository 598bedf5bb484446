//! Crash vectors: how often each replica of a cluster has come back having lost its memory.
#![tactic(auto)]

ghost use Rattle.std.specs.Prelude.{◌≡◌, ℕ, ◌+◌, ◌^◌, ◌<◌, ◌≤◌, ◌↔◌, length, slice_index, slice_set, nat_eq, replicate, All, Any, IsTrue, IsSome, IfSome};
ghost use Rattle.std.specs.Bool.{OnTrue, OnFalse};
ghost use Rattle.std.specs.Cmp.{partial_equiv_from_equiv};
ghost use Rattle.std.specs.Cmp.Lexicographic.{nat_list_eq_equiv, pointwise};
ghost use Rattle.nz_cv.specs.Vectors.{IsClusterSize, Stray, is_stray, merged_vector, greater_counters, Consistent, AreFrom};

mod laws;

pub use laws::{consistent_where_none_is_stray, merged_vectors_never_fall};
use std::marker::Model;

/// The most replicas of a cluster. This crate has nothing below it: the same number is `nz_base::MAX_REPLICAS`.
const MAX_REPLICAS: usize = 9;

/// The crash counters of all replicas of a cluster, one at the place of each replica's number, as one
/// replica knows them (Michael et al., DISC 2017). A counter rises each time its replica comes back
/// having lost its memory, so a message with a lower counter was sent before that.
#[derive(Clone, Copy, Debug)]
pub struct CrashVector {
    counters: [u32; MAX_REPLICAS],
    size: u8,
}

impl Model for CrashVector {
    ghost use Rattle.std.specs.Prelude.{List, ℕ, length, take};
    ghost use Rattle.nz_cv.specs.Layout.{IsLaidOut, with_zeros, with_zeros-take, length-vector};

    ghost Value = { List ℕ };

    ghost view = { λ v. take v.size v.counters };

    ghost invariant = { λ v. IsLaidOut v.counters v.size };

    ghost inverse = { λ counters. record { counters = with_zeros counters; size = length counters } };

    ghost inverse_ok = { λ v laid_out. λ i. record {
      counters = with_zeros-take v.counters v.size laid_out i;
      size = length-vector v.counters v.size laid_out i;
    } };
}

impl CrashVector {
    /// The vector of a cluster of `size` replicas of which none has lost its memory.
    pub fn zero(size: u8) -> CrashVector
        requires { IsClusterSize size }
        ensures { result ≡ replicate size 0 }
    {
        CrashVector {
            counters: [0; MAX_REPLICAS],
            size,
        }
    }

    /// The number of replicas.
    pub fn size(&self) -> u8
        ensures size { result ≡ length self.now }
        ensures cluster { IsClusterSize result }
    {
        self.size
    }

    /// The counter of the replica with the number `place`.
    pub fn get(&self, place: u8) -> u32
        requires { place < length self.now }
        ensures { result ≡ slice_index self.now place }
    {
        self.counters[place as usize]
    }

    /// The vector with these counters, in the order of the replicas' numbers.
    pub fn from_slice(counters: &[u32]) -> Option<CrashVector>
        ensures size { IsSome result ↔ IsClusterSize (length counters.now) }
        ensures counters { IfSome result (λ vector. vector ≡ counters.now) }
    {
        if !matches!(counters.len(), 3 | 5 | 7 | 9) {
            return None;
        }
        let mut laid_out = [0; MAX_REPLICAS];
        laid_out[..counters.len()].copy_from_slice(counters);
        Some(CrashVector {
            counters: laid_out,
            size: counters.len() as u8,
        })
    }

    /// The counters, in the order of the replicas' numbers.
    pub fn as_slice(&self) -> &[u32]
        ensures { result.now ≡ self.now }
    {
        &self.counters[..self.size as usize]
    }

    /// The counter at a place; 0 where there is none.
    fn counter(&self, place: u8) -> u32
        ensures { result ≡ slice_index self.now place }
    {
        match self.as_slice().get(place as usize) {
            Some(counter) => *counter,
            None => 0,
        }
    }

    /// Whether a message of `sender` with this vector was sent before an incarnation of the sender that
    /// the receiver knows of. A counter that a vector has not is 0.
    pub fn is_stray(&self, sender: u8, known: &CrashVector) -> bool
        ensures value { result ≡ is_stray self.now sender known.now }
        ensures stray { IsTrue result ↔ Stray self.now sender known.now }
    {
        self.counter(sender) < known.counter(sender)
    }

    /// Takes in what another replica's vector knows; `own` is the number of the replica that merges,
    /// which alone raises its own counter.
    pub fn merge(&mut self, other: &CrashVector, own: u8)
        requires one_size { length self.old ≡ length other.now }
        requires own { own < length self.old }
        ensures { self.new ≡ merged_vector self.old other.now own }
    {
        let kept = self.counters[own as usize];
        raise(&mut self.counters, &other.counters);
        self.counters[own as usize] = kept;
    }

    /// Counts another loss of memory of the replica `own`, whose counter was at most `claim` before.
    /// False where there is no number above `claim`.
    pub fn bump(&mut self, own: u8, claim: u32) -> bool
        requires { own < length self.old }
        ensures counted { IsTrue result ↔ (claim + 1 < 2 ^ 32) }
        ensures set { OnTrue result (self.new ≡ slice_set self.old own (claim + 1)) }
        ensures unchanged { OnFalse result (self.new ≡ self.old) }
    {
        let Some(next) = claim.checked_add(1) else {
            return false;
        };
        self.counters[own as usize] = next;
        true
    }
}

impl PartialEq for CrashVector {
    ghost eq = { pointwise nat_eq };

    ghost laws = { partial_equiv_from_equiv nat_list_eq_equiv };

    fn eq(&self, other: &CrashVector) -> bool
        ensures value { result ≡ pointwise nat_eq self.now other.now }
        ensures same { IsTrue result ↔ (self.now ≡ other.now) }
    {
        self.as_slice() == other.as_slice()
    }
}

impl Eq for CrashVector {
    ghost laws = { nat_list_eq_equiv };
}

/// Whether no vector of the list makes another one stray for its sender. Each is beside its sender.
pub fn consistent(list: &[(u8, CrashVector)]) -> bool
    requires { (size : ℕ) × AreFrom size list.now }
    ensures { IsTrue result ↔ Consistent list.now }
{
    list.iter().all(|(sender, vector)| !is_stray_for_any(*sender, vector, list))
}

fn is_stray_for_any(sender: u8, vector: &CrashVector, list: &[(u8, CrashVector)]) -> bool
    requires sender { sender < length vector.now }
    requires one_size { All (λ known. length known.1 ≡ length vector.now) list.now }
    ensures { IsTrue result ↔ Any (λ known. Stray vector.now sender known.1) list.now }
{
    list.iter().any(|(_, known)| vector.is_stray(sender, known))
}

// Raises each counter to that of `others` where that is greater.
fn raise(counters: &mut [u32; MAX_REPLICAS], others: &[u32; MAX_REPLICAS])
    ensures { counters.new ≡ greater_counters counters.old others.now }
{
    for (place, counter) in counters.iter_mut().enumerate() {
        *counter = (*counter).max(others[place]);
    }
}
