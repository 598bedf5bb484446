//! A chronicle of a run: a list that only grows, which the proofs alone know. What the code has of it is its length.

ghost use Rattle.std.specs.Prelude.{◌≡◌, ◌++◌, ◌∷◌, ◌<◌, ◌^◌, [], length, MatchBool};
ghost use mathlib.Core.List.{IsPrefix};
ghost use Rattle.nz_fabric.specs.threads.Chronicles.{head_of};

use crate::threads::batch::Batch;
use crate::threads::run_name::RunName;
use logbook::{Gain, Offer, Plain, Play, Rule, Start, Word};
use nz_machine::Record;
use std::marker::{Model, PhantomData};

/// The rule of a chronicle: its word is its length.
pub struct Law;

impl<E> Rule<E, u64> for Law {
    ghost use Rattle.std.specs.Prelude.{[]};
    ghost use base.Fml.{ftrue};
    ghost use Rattle.nz_fabric.specs.threads.Chronicles.{IsKept};

    ghost holds = { λ cells log. IsKept cells log };

    ghost first = { [] };

    ghost hinted = { λ n log. Unit {0} };

    ghost shows = { λ log. [] };

    ghost keeps = { λ names log. ftrue };

    ghost moves = { λ ask before after answer. Unit {0} };
}

/// An entry is added for nothing in return.
pub struct Nothing;

impl<E> Gain<E, u64> for Nothing {
    ghost use base.Fml.{ftrue};

    ghost after = { λ names about answer. ftrue };
}

/// The step that adds an entry.
pub struct Add;

impl<E> Play<E, u64> for Add {
    ghost use Rattle.nz_fabric.specs.threads.Chronicles.{Adds};

    ghost then = { Adds };
}

impl<E> Plain<E, E, u64> for Add {
    ghost use Rattle.std.specs.Prelude.{None};

    ghost ask = { λ step. step };

    ghost state = { λ step. None };
}

/// A type that says which of a run's chronicles is meant.
pub trait Booked {
    ghost use Rattle.logbook.specs.Pages.{Book};

    ghost book: { Book };
}

/// The records of the run of this name.
pub struct RecordsOf<N: RunName> {
    of: PhantomData<N>,
}

impl<N: RunName> Booked for RecordsOf<N> {
    ghost book = { N.chronicles.records };
}

/// The takes of the run of this name.
pub struct TakesOf<N: RunName> {
    of: PhantomData<N>,
}

impl<N: RunName> Booked for TakesOf<N> {
    ghost book = { N.chronicles.takes };
}

/// A chronicle without entries, which has no name yet.
#[derive(Drop)]
pub struct Unnamed<E> {
    head: Word<E, u64, Law>,
    seen: logbook::Seen<E, u64, Law>,
}

impl<E> Model for Unnamed<E> {
    ghost use Rattle.std.specs.Prelude.{◌≡◌, []};
    ghost use Rattle.logbook.specs.Pages.{Book};
    ghost use Rattle.nz_fabric.specs.threads.Chronicles.{head_of};

    ghost Value = { Book };

    ghost view = { λ o. o.seen.book };

    ghost invariant = { λ o. (o.seen.log ≡ []) × (o.head ≡ head_of o.seen.book) };
}

impl<E> Unnamed<E> {
    pub fn new() -> Unnamed<E> {
        let (seen, mut first, _second) = logbook::Seen::open(Start::alone(), 0, 0);
        Unnamed {
            head: Word::tracked(0, &mut first),
            seen,
        }
    }

    /// The chronicle under its name.
    pub fn named<B: Booked>(self) -> (Chronicle<E, B>, Seen<E, B>)
        requires { self ≡ B.book }
        ensures { result.1 ≡ [] }
    {
        let Unnamed { head, seen } = self;
        (
            Chronicle {
                head,
                of: PhantomData,
            },
            Seen {
                seen,
                of: PhantomData,
            },
        )
    }
}

/// The chronicles of a run that has no name yet.
#[derive(Drop)]
pub struct Opened {
    pub(crate) records: Unnamed<Record>,
    pub(crate) takes: Unnamed<Batch>,
}

impl Model for Opened {
    ghost use Rattle.nz_fabric.specs.threads.Chronicles.{Chronicles};

    ghost Value = { Chronicles };

    ghost view = { λ o. record { records = o.records; takes = o.takes } };
}

impl Opened {
    pub fn new() -> Opened {
        Opened {
            records: Unnamed::new(),
            takes: Unnamed::new(),
        }
    }
}

/// The length of a run's chronicle. Contracts see which one it is.
#[derive(Drop)]
pub struct Chronicle<E, B: Booked> {
    head: Word<E, u64, Law>,
    of: PhantomData<B>,
}

impl<E, B: Booked> Model for Chronicle<E, B> {
    ghost use Rattle.std.specs.Prelude.{◌≡◌};
    ghost use Rattle.logbook.specs.Pages.{Book};
    ghost use Rattle.nz_fabric.specs.threads.Chronicles.{head_of};

    ghost Value = { Book };

    ghost view = { λ c. c.head.book };

    ghost invariant = { λ c. c.head ≡ head_of B.book };
}

/// A prefix of a run's chronicle that was seen. It takes no memory. Contracts see it as its entries, the oldest first.
#[derive(Drop)]
pub struct Seen<E, B: Booked> {
    seen: logbook::Seen<E, u64, Law>,
    of: PhantomData<B>,
}

impl<E, B: Booked> Model for Seen<E, B> {
    ghost use Rattle.std.specs.Prelude.{◌≡◌, List};

    ghost Value = { List E };

    ghost view = { λ s. s.seen.log };

    ghost invariant = { λ s. s.seen.book ≡ B.book };
}

impl<E, B: Booked> Seen<E, B> {
    /// A copy.
    pub fn again(&self) -> Seen<E, B>
        ensures { result ≡ self.now }
    {
        Seen {
            seen: self.seen.again(),
            of: PhantomData,
        }
    }

    /// What both have seen, the longer of the two.
    pub fn both(&self, other: &Seen<E, B>) -> Seen<E, B>
        ensures this { IsPrefix self.now result }
        ensures that { IsPrefix other.now result }
    {
        let mut both = self.seen.again();
        both.learn(&other.seen);
        Seen {
            seen: both,
            of: PhantomData,
        }
    }
}

impl<E, B: Booked> Chronicle<E, B> {
    /// Adds the entry to what was seen where that is all of the chronicle. What others saw is then a prefix of it.
    pub fn append(&self, seen: &mut Seen<E, B>, other: &Seen<E, B>, number: u64, step: &E) -> bool
        requires number { number ≡ length seen.old }
        requires few { number < 2 ^ 62 }
        ensures { MatchBool result ((seen.new ≡ seen.old ++ step.now ∷ []) × IsPrefix other.now seen.old) (seen.new ≡ seen.old) }
    {
        let mut both = seen.seen.again();
        both.learn(&other.seen);
        let mut offer: Offer<E, u64, Law, Nothing> = both.plain::<Nothing, E, Add>(step);
        let mut pen = both.no_pen();
        let found = self
            .head
            .compare_exchange::<Add, Nothing>(number, number + 1, &mut both, &mut offer, &mut pen);
        if found != number {
            return false;
        }
        seen.seen = both;
        true
    }
}
