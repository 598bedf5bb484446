//! The tenures of locks.
ghost use Rattle.std.specs.Prelude.{◌≡◌, Some, IfOk, OnOk, if◌then◌else◌};
ghost use Rattle.indexmap.specs.IndexMap.{get};
ghost use Rattle.nz_locks.specs.declared.holding.Holding.{Holding as HoldingModel};
ghost use Rattle.nz_locks.specs.Holdings.{same_holding};
ghost use Rattle.nz_locks.specs.Tenures as spec;
ghost use Rattle.nz_locks.specs.Tenures.{done_use, tenures_of};
ghost use Rattle.nz_locks.specs.Uses.{use_lent};

use crate::uses::{UseRef, use_of};
use indexmap::IndexMap;
use nz_base::{Blob, List, NoMemory};
use nz_machine::{Executed, History};
use nz_store::Answer;
use std::alloc::Global;

/// How long a client held a lock. Places are those of the history, counted from 1.
#[derive(Debug, Drop)]
pub struct Tenure {
    pub name: Blob,
    pub client: u32,
    /// Where the client took the lock.
    pub from: u32,
    /// Where it gave the lock back, if it did.
    pub to: Option<u32>,
}

pub type TenureList = List<Tenure>;

/// A client and the name of a lock, which is lent.
#[derive(Clone, Copy, Debug, PartialEq, Eq, Hash)]
struct Holding<'a> {
    client: u32,
    name: &'a [u8],
}

/// The place of the next release of each lock by each client.
type Releases<'a> = IndexMap<Holding<'a>, u32>;

fn note_release<'a>(
    releases: &mut Releases<'a>,
    holding: Holding<'a>,
    place: u32,
) -> Result<(), NoMemory>
    ensures { OnOk result ((h : HoldingModel) → get same_holding releases.new h
        ≡ (if same_holding holding.entry h then Some place else get same_holding releases.old h)) }
{
    releases.insert(holding, place)?;
    Ok(())
}

/// What an executed command did with a lock.
fn use_if_done(executed: &Executed) -> UseRef<'_>
    ensures { use_lent result ≡ done_use executed.now }
{
    match executed.answer {
        Answer::Done => use_of(executed.id.client, executed.command.as_slice()),
        Answer::Value(_) | Answer::Absent | Answer::Differs => UseRef::Other,
    }
}

/// The tenures of a history, in the order of their beginnings. From the last command to the first, each release is
/// noted for the acquires before it.
pub fn tenures(alloc: Global, history: &History) -> Result<TenureList, NoMemory>
    ensures { IfOk result (λ tenures. tenures ≡ tenures_of history.now) }
{
    let mut releases = IndexMap::new(alloc);
    let mut found = Vec::new(alloc);
    for index in (0..history.len()).rev() {
        let executed = history.get(index);
        let client = executed.id.client;
        let place = index + 1;
        match use_if_done(executed) {
            UseRef::Acquire(name) => found.push(Tenure {
                name: Blob::from_slice(alloc, name)?,
                client,
                from: place,
                to: releases.get(&Holding { client, name }).copied(),
            })?,
            UseRef::Release(name) => note_release(&mut releases, Holding { client, name }, place)?,
            UseRef::Foul | UseRef::Other => {}
        }
    }
    found.reverse();
    Ok(TenureList::from_vec(found))
}
