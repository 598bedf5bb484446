//! What an actor knows of its own records.

ghost use Rattle.std.specs.Prelude.{◌≡◌};

use crate::threads::chronicle::{RecordsOf, Seen};
use crate::threads::run_name::RunName;
use nz_base::Actor;
use nz_machine::Record;
use std::marker::Model;

/// An actor's own records among those of the run that it has seen. It keeps none of them, but how many they are.
/// Contracts see them, the newest first.
#[derive(Drop)]
pub struct Lane<N: RunName> {
    pub(crate) actor: Actor,
    pub(crate) count: u32,
    pub(crate) seen: Seen<Record, RecordsOf<N>>,
}

impl<N: RunName> Model for Lane<N> {
    ghost use Rattle.std.specs.Prelude.{◌≡◌, length, reverse};
    ghost use Rattle.nz_fabric.specs.threads.Records.{ActorSteps, steps_of};

    ghost Value = { ActorSteps };

    ghost view = { λ l. steps_of l.actor (reverse l.seen) };

    ghost invariant = { λ l. l.count ≡ length (steps_of l.actor (reverse l.seen)).steps };
}

impl<N: RunName> Lane<N> {
    pub fn actor(&self) -> Actor
        ensures { result ≡ self.now.actor }
    {
        self.actor
    }
}
