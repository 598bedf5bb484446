//! Batches that are open, and the chronicle of takes.

ghost use Rattle.std.specs.Prelude.{◌≡◌, ◌+◌, ◌<◌, ◌^◌, ◌==◌, [], ℕ, length, get_or, unwrap_or, IfSome, IsTrue, ◌↔◌, MatchResult};
ghost use Rattle.std.specs.List.{position};
ghost use Rattle.nz_fabric.specs.declared.threads.batch.Batch.{Batch as BatchModel};
ghost use Rattle.nz_fabric.specs.threads.Shared.{batch_for, place_of_batch, without_batch};
ghost use Rattle.nz_fabric.specs.threads.Takes.{batch_of, batches_with, with_one};

use crate::threads::batch::Batch;
use crate::threads::chronicle::{Chronicle, Seen, TakesOf, Unnamed};
use crate::threads::run_name::RunName;
use nz_base::{Actor, List, NoMemory};
use nz_machine::Event;
use std::alloc::Global;
use std::marker::Model;

/// Batches are numbered below this.
const MAX_BATCHES: u64 = 1 << 32;

/// A batch of a run on several threads. It is the take of its number, which the proofs alone know.
pub struct Taken<N: RunName> {
    batch: Batch,
    seen: Seen<Batch, TakesOf<N>>,
}

impl<N: RunName> Model for Taken<N> {
    ghost use Rattle.std.specs.Prelude.{◌<◌, length};
    ghost use Rattle.nz_fabric.specs.declared.threads.batch.Batch.{Batch};
    ghost use Rattle.nz_fabric.specs.threads.Takes.{IsTake};

    ghost Value = { Batch };

    ghost view = { λ t. t.batch };

    ghost invariant = { λ t. IsTake t.seen t.batch × (0 < length t.batch.events) };
}

impl<N: RunName> Taken<N> {
    pub fn batch(&self) -> &Batch
        ensures { result.now ≡ self.now }
    {
        &self.batch
    }

    /// The batch alone, which cannot be recorded any more.
    pub fn into_batch(self) -> Batch
        ensures batch { result ≡ self }
        ensures some { 0 < length result.events }
    {
        let Taken { batch, seen: _ } = self;
        batch
    }
}

/// The open batches of a run, beside its takes. It keeps their numbers. The batch of each is the take of its number.
#[derive(Drop)]
pub struct OpenBatches<N: RunName> {
    numbers: Vec<u64>,
    /// How many were taken.
    taken: u64,
    chronicle: Chronicle<Batch, TakesOf<N>>,
    seen: Seen<Batch, TakesOf<N>>,
}

impl<N: RunName> Model for OpenBatches<N> {
    ghost use Rattle.std.specs.Prelude.{◌≡◌, length, map};
    ghost use Rattle.nz_fabric.specs.threads.Takes.{Batches, AreTakes, batch_in, batches_with};

    ghost Value = { Batches };

    ghost view = { λ t. batches_with (map (batch_in t.seen) t.numbers.items) t.taken };

    ghost invariant = { λ t. (t.taken ≡ length t.seen) × AreTakes t.seen (map (batch_in t.seen) t.numbers.items) };
}

impl<N: RunName> OpenBatches<N> {
    /// No batch was taken.
    pub fn new(alloc: Global, takes: Unnamed<Batch>) -> OpenBatches<N>
        requires { takes ≡ N.chronicles.takes }
        ensures { result ≡ batches_with [] 0 }
    {
        let (chronicle, seen) = takes.named::<TakesOf<N>>();
        OpenBatches {
            numbers: Vec::new(alloc),
            taken: 0,
            chronicle,
            seen,
        }
    }

    /// Whether none is open.
    pub fn is_empty(&self) -> bool
        ensures { IsTrue result ↔ (length self.now.running ≡ 0) }
    {
        self.numbers.is_empty()
    }

    /// Opens a batch. Also `NoMemory` where another network of this name took one.
    pub fn take(&mut self, actor: Actor, events: List<Event>) -> Result<Taken<N>, NoMemory>
        requires some { 0 < length events }
        ensures { MatchResult result
            (λ batch. (batch ≡ batch_of (self.old.taken + 1) actor events) × (self.new ≡ with_one batch self.old))
            (λ _. self.new ≡ self.old) }
    {
        let before = self.taken;
        if before >= MAX_BATCHES {
            return Err(NoMemory);
        }
        self.numbers.reserve(1)?;
        let number = before + 1;
        let batch = Batch {
            number,
            actor,
            events,
        };
        let other = self.seen.again();
        if !self
            .chronicle
            .append(&mut self.seen, &other, before, &batch)
        {
            batch.into_number();
            return Err(NoMemory);
        }
        self.taken = number;
        self.numbers.push_reserved(number);
        Ok(Taken {
            batch,
            seen: self.seen.again(),
        })
    }

    /// An open batch of the batch's number is that batch, for the caller's proof. Does nothing.
    fn agree(&self, batch: &Taken<N>)
        ensures { (i : ℕ) (d : BatchModel) → i < length self.now.running → (get_or self.now.running i d).number ≡ batch.now.number
            → get_or self.now.running i d ≡ batch.now }
    {
        let _known = self.seen.both(&batch.seen); // shows: both have the take of the number
    }

    /// Takes out the open batch that the batch's number names. Whether it is the batch itself.
    pub fn close(&mut self, batch: &Taken<N>) -> bool
        requires { 0 < length self.old.running }
        ensures place { place_of_batch batch.now.number self.old.running < length self.old.running }
        ensures closed { self.new ≡ batches_with (without_batch batch.now.number self.old.running) self.old.taken }
        ensures same { IsTrue result ↔ (batch_for batch.now.number self.old.running ≡ batch.now) }
    {
        self.agree(batch);
        let number = batch.batch.number;
        let place = place_of(self.numbers.as_slice(), number);
        self.numbers.remove(place) == number
    }
}

/// The place of the number, or else the least.
fn place_of(numbers: &[u64], number: u64) -> usize
    requires { 0 < length numbers.now }
    ensures place { result ≡ unwrap_or (position (λ n. n == number) numbers.now) 0 }
    ensures within { result < length numbers.now }
{
    find(numbers, number).unwrap_or(0)
}

fn find(numbers: &[u64], number: u64) -> Option<usize>
    ensures place { result ≡ position (λ n. n == number) numbers.now }
    ensures within { IfSome result (λ place. place < length numbers.now) }
{
    numbers.iter().position(|n| *n == number)
}
