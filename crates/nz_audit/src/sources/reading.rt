//! One reading of the records of a run, for the answers to some requests.

ghost use Rattle.std.specs.Prelude.{◌≡◌, ◌≤◌, ◌<◌, ◌+◌, ◌∷◌, ◌++◌, [], Bool, true, false, ℕ, nat_eq, List, length, Some, IfOk, OnOk};
ghost use Rattle.std.specs.HashSet.{contains};
ghost use Rattle.indexmap.specs.IndexMap.{get};
ghost use Rattle.nz_base.specs.Key.{id_eq};
ghost use Rattle.nz_base.specs.declared.key.Id.{Id as IdModel};
ghost use Rattle.nz_machine.specs.journals.Journals.{group_in, run_in};
ghost use Rattle.nz_machine.specs.rules.State.{Group};
ghost use Rattle.nz_machine.specs.runs.World.{World};
ghost use Rattle.nz_machine.specs.declared.event.Parcel.{Parcel as ParcelModel};
ghost use Rattle.nz_machine.specs.declared.event.Record.{Record as RecordModel};
ghost use Rattle.nz_machine.specs.declared.journal.Journal.{Journal as JournalModel};
ghost use Rattle.nz_replay.specs.Runs.{run_up_to};
ghost use Rattle.nz_audit.specs.Noting.{after_event, down_after, decided_in, IsSized};
ghost use Rattle.nz_audit.specs.Memories.{memory};
ghost use Rattle.nz_audit.specs.Sources as sources;
ghost use Rattle.nz_audit.specs.Sources.{source_sent, source_delivered};
ghost use Rattle.nz_audit.specs.Readings.{known_to, is_down_in, IsProxy, IsTable, IsTableWith, IsNextRecord, IsRead};

use crate::accepted::answers::Source;
use crate::sources::notes::Noted;
use crate::sources::proxy::ProxyNotes;
use crate::sources::sendings::Sendings;
use crate::sources::wanted::{about, is_other_request};
use indexmap::IndexMap;
use nz_base::{Actor, Cluster, Id, NoMemory};
use nz_machine::{Event, Journal, Parcel, Record};
use std::alloc::Global;
use std::collections::HashSet;

/// What each proxy knows, by its number.
pub type Proxies = IndexMap<u8, ProxyNotes>;

/// What the records that were read so far have made of the wanted requests.
#[derive(Drop)]
pub struct Reading {
    pub proxies: Proxies,
    pub sendings: Sendings,
}

/// The source of the reply with which a proxy decided the request, if it has decided.
fn source_decided(proxies: &Proxies, number: u8, id: Id) -> Option<Source>
    ensures { result ≡ decided_in (known_to (get nat_eq proxies.now number) id) }
{
    match proxies.get(&number)?.known.get(&id)? {
        Noted::Open(_) => None,
        Noted::Decided(source) => *source,
    }
}

/// The proxy takes an event of its own, and whether it sends nothing then.
fn proxy_takes(
    proxies: &mut Proxies,
    alloc: Global,
    cluster: Cluster,
    number: u8,
    event: &Event,
    sendings: &Sendings,
    is_silent: bool,
) -> Result<(), NoMemory>
    requires { (id : IdModel) → IsSized cluster (known_to (get nat_eq proxies.old number) id) }
    ensures others { OnOk result ((k : ℕ) → nat_eq number k ≡ false → get nat_eq proxies.new k ≡ get nat_eq proxies.old k) }
    ensures down { OnOk result (is_down_in (get nat_eq proxies.new number) ≡ down_after event.now (is_down_in (get nat_eq proxies.old number))) }
    ensures known { OnOk result ((id : IdModel) → known_to (get nat_eq proxies.new number) id
        ≡ after_event cluster number (source_delivered sendings.now.kept.entries event.now) is_silent (is_down_in (get nat_eq proxies.old number))
        id event.now (known_to (get nat_eq proxies.old number) id)) }
{
    match proxies.get_mut(&number) {
        Some(notes) => notes.take(alloc, cluster, number, event, sendings, is_silent),
        None => {
            let mut notes = ProxyNotes::new(alloc);
            notes.take(alloc, cluster, number, event, sendings, is_silent)?;
            proxies.insert(number, notes)?;
            Ok(())
        }
    }
}

/// The source of a parcel about the request, which this actor first sends with the record of this count.
fn source_for(
    proxies: &Proxies,
    journal: &Journal,
    records: u32,
    from: Actor,
    id: Id,
) -> Option<Source>
    requires records { records ≤ length journal.now.records }
    requires known { (q : ℕ) → known_to (get nat_eq proxies.now q) id ≡ memory (group_in journal.now) q id (run_up_to journal.now records) }
    ensures { result ≡ source_sent (group_in journal.now) id from (run_up_to journal.now records) }
{
    match from {
        Actor::Replica(replica) => Some(Source { replica, records }),
        Actor::Proxy(proxy) => source_decided(proxies, proxy, id),
        Actor::Client(_) => None,
    }
}

/// Keeps the source of a parcel about the request, which the record of this count sends, where it was not sent before.
fn keep_about(
    proxies: &Proxies,
    sendings: &mut Sendings,
    journal: &Journal,
    records: u32,
    parcel: &Parcel,
    id: Id,
) -> Result<(), NoMemory>
    requires about { sources.about parcel.now ≡ Some id }
    requires records { records ≤ length journal.now.records }
    requires known { (q : ℕ) → known_to (get nat_eq proxies.now q) id ≡ memory (group_in journal.now) q id (run_up_to journal.now records) }
    ensures { OnOk result ((w : IdModel → Bool) (done : List ParcelModel) (r : RecordModel) (J : List RecordModel) → w id ≡ true
        → run_up_to journal.now records ≡ r ∷ J → IsTableWith (group_in journal.now) w done r J sendings.old.kept.entries
        → IsTableWith (group_in journal.now) w (done ++ parcel.now ∷ []) r J sendings.new.kept.entries) }
{
    if sendings.has(parcel)? {
        return Ok(());
    }
    let source = source_for(proxies, journal, records, parcel.from, id);
    sendings.keep(parcel, source)
}

/// Keeps the source of a parcel that the record of this count sends.
fn keep_sending(
    proxies: &Proxies,
    sendings: &mut Sendings,
    alloc: Global,
    wanted: &HashSet<Id>,
    journal: &Journal,
    records: u32,
    parcel: &Parcel,
) -> Result<(), NoMemory>
    requires records { records ≤ length journal.now.records }
    requires proxies { (q : ℕ) → IsProxy (group_in journal.now) (contains id_eq wanted.now) (run_up_to journal.now records) q (get nat_eq proxies.now q) }
    ensures { OnOk result ((done : List ParcelModel) (r : RecordModel) (J : List RecordModel) → run_up_to journal.now records ≡ r ∷ J
        → IsTableWith (group_in journal.now) (contains id_eq wanted.now) done r J sendings.old.kept.entries
        → IsTableWith (group_in journal.now) (contains id_eq wanted.now) (done ++ parcel.now ∷ []) r J sendings.new.kept.entries) }
{
    match about(alloc, wanted, parcel)? {
        None => Ok(()),
        Some(id) => keep_about(proxies, sendings, journal, records, parcel, id),
    }
}

/// Keeps the sources of the parcels that a record sends, which is the one of this count.
fn keep_sendings(
    proxies: &Proxies,
    sendings: &mut Sendings,
    alloc: Global,
    wanted: &HashSet<Id>,
    journal: &Journal,
    records: u32,
    next: &Record,
) -> Result<(), NoMemory>
    requires records { records ≤ length journal.now.records }
    requires proxies { (q : ℕ) → IsProxy (group_in journal.now) (contains id_eq wanted.now) (run_up_to journal.now records) q (get nat_eq proxies.now q) }
    ensures { OnOk result ((J : List RecordModel) → run_up_to journal.now records ≡ next.now ∷ J
        → IsTable (group_in journal.now) (contains id_eq wanted.now) J sendings.old.kept.entries
        → IsTable (group_in journal.now) (contains id_eq wanted.now) (next.now ∷ J) sendings.new.kept.entries) }
{
    for parcel in next.sends.as_slice() {
        keep_sending(
            proxies,
            sendings,
            alloc,
            wanted,
            journal,
            records,
            parcel.get(),
        )?;
    }
    Ok(())
}

/// A proxy takes its record, unless that brings a request that is not wanted.
fn act(
    proxies: &mut Proxies,
    sendings: &Sendings,
    alloc: Global,
    wanted: &HashSet<Id>,
    cluster: Cluster,
    next: &Record,
) -> Result<(), NoMemory>
    requires { (q : ℕ) (id : IdModel) → IsSized cluster (known_to (get nat_eq proxies.old q) id) }
    ensures { OnOk result ((g : Group) (J : List RecordModel) → World g (next.now ∷ J) → g.f ≡ cluster
        → IsTable g (contains id_eq wanted.now) J sendings.now.kept.entries
        → ((q : ℕ) → IsProxy g (contains id_eq wanted.now) J q (get nat_eq proxies.old q))
        → (q : ℕ) → IsProxy g (contains id_eq wanted.now) (next.now ∷ J) q (get nat_eq proxies.new q)) }
{
    let Actor::Proxy(number) = next.actor else {
        return Ok(());
    };
    if is_other_request(wanted, &next.event) {
        return Ok(());
    }
    let is_silent = next.sends.is_empty();
    proxy_takes(
        proxies,
        alloc,
        cluster,
        number,
        &next.event,
        sendings,
        is_silent,
    )
}

impl Reading {
    /// Before the first record.
    fn new(alloc: Global) -> Reading
        ensures { (journal : JournalModel) (w : IdModel → Bool) → IsRead journal w [] result }
    {
        Reading {
            proxies: IndexMap::new(alloc),
            sendings: Sendings::new(alloc),
        }
    }

    /// Takes a record, which is the one of this count.
    fn read(
        &mut self,
        alloc: Global,
        wanted: &HashSet<Id>,
        journal: &Journal,
        records: u32,
        next: &Record,
    ) -> Result<(), NoMemory>
        requires records { records ≤ length journal.now.records }
        requires run { (J : List RecordModel) × IsNextRecord journal.now records next.now J × IsRead journal.now (contains id_eq wanted.now) J self.old }
        ensures { OnOk result (IsRead journal.now (contains id_eq wanted.now) (run_up_to journal.now records) self.new) }
    {
        act(
            &mut self.proxies,
            &self.sendings,
            alloc,
            wanted,
            journal.scenario.cluster,
            next,
        )?;
        keep_sendings(
            &self.proxies,
            &mut self.sendings,
            alloc,
            wanted,
            journal,
            records,
            next,
        )
    }

    /// Takes the record at this place. A silent tick changes nothing.
    fn read_at(
        &mut self,
        alloc: Global,
        wanted: &HashSet<Id>,
        journal: &Journal,
        place: u32,
    ) -> Result<(), NoMemory>
        requires world { World (group_in journal.now) (run_in journal.now) }
        requires place { place < length journal.now.records }
        requires run { IsRead journal.now (contains id_eq wanted.now) (run_up_to journal.now place) self.old }
        ensures { OnOk result (IsRead journal.now (contains id_eq wanted.now) (run_up_to journal.now (place + 1)) self.new) }
    {
        // Places are below it.
        let _count = journal.records.len();
        match journal.records.get_whole(place) {
            Some(next) => self.read(alloc, wanted, journal, place + 1, next),
            None => Ok(()),
        }
    }
}

/// What each parcel about a wanted request stands for, of those that were sent in the run.
pub fn sendings_in(
    alloc: Global,
    wanted: &HashSet<Id>,
    journal: &Journal,
) -> Result<Sendings, NoMemory>
    requires { World (group_in journal.now) (run_in journal.now) }
    ensures { IfOk result (λ sendings. IsTable (group_in journal.now) (contains id_eq wanted.now) (run_in journal.now) sendings.kept.entries) }
{
    let mut reading = Reading::new(alloc);
    for place in 0..journal.records.len() {
        reading.read_at(alloc, wanted, journal, place)?;
    }
    Ok(reading.sendings)
}
