//! The early buffer, as an ordered map with an index.

ghost use Rattle.std.specs.Prelude.{◌≡◌, ◌++◌, ◌<◌, [], ◌↔◌, if◌then◌else◌, true, Some, None, length, IsTrue, IsFalse, IsSome, IsOk, IfOk, OnOk, OnErr, not};
ghost use Rattle.std.specs.Option.{option_copied, option_to_list};
ghost use Rattle.indexmap.specs.IndexMap.{get, spare};
ghost use Rattle.nz_base.specs.declared.key.Id.{Id as IdModel};
ghost use Rattle.nz_base.specs.Key.{key_below, id_eq, id_of};
ghost use Rattle.nz_base.specs.Log.{keys_of, has_id};
ghost use Rattle.nz_buffers.specs.Buffers.{find_id, without, first_key, is_past, is_due, released, first_if};
ghost use Rattle.nz_buffers.specs.Offers.{offer_answer, after_offer};

use super::early_rep::EarlyRep;
use indexmap::IndexMap;
use nz_base::{Entry, Id, Key, NoMemory};
use std::alloc::Global;
use std::collections::BTreeMap;
use std::marker::Model;

/// What became of an entry that was offered to the early buffer.
#[derive(Debug, Drop, PartialEq, Eq)]
pub enum Offer {
    Taken,
    /// The entry comes back.
    Late(Entry),
}

/// The entries that wait for their deadlines. A clause sees the list of them in the order of
/// their keys.
#[derive(Debug, Drop)]
pub struct Early {
    entries: BTreeMap<Key, Entry>,
    // Of each id.
    keys: IndexMap<Id, Key>,
}

impl Model for Early {
    ghost use Rattle.std.specs.Prelude.{List};
    ghost use Rattle.nz_base.specs.declared.key.Entry.{Entry as EntryModel};
    ghost use Rattle.std.specs.Map.{values_of};
    ghost use Rattle.nz_buffers.specs.Keeping.{IsKeptBuffer};

    ghost Value = { List EntryModel };

    ghost view = { λ b. values_of b.entries.entries };

    ghost invariant = { λ b. IsKeptBuffer b.entries.entries b.keys.entries };
}

impl Early {
    pub fn new(alloc: Global) -> Early
        ensures { result ≡ [] }
    {
        Early {
            entries: BTreeMap::new(alloc),
            keys: IndexMap::new(alloc),
        }
    }

    pub fn len(&self) -> usize
        ensures { result ≡ length self.now }
    {
        self.entries.len()
    }

    pub fn is_empty(&self) -> bool
        ensures { IsTrue result ↔ (self.now ≡ []) }
    {
        self.entries.is_empty()
    }

    /// Puts the keys, in their order, after those of the list.
    pub fn append_keys(&self, keys: &mut Vec<Key>) -> Result<(), NoMemory>
        ensures { OnOk result (keys.new.items ≡ keys.old.items ++ keys_of self.now) }
    {
        for (_, entry) in &self.entries {
            keys.push(entry.key)?;
        }
        Ok(())
    }

    /// The least key.
    pub fn first(&self) -> Option<Key>
        ensures { result ≡ first_key self.now }
    {
        match self.entries.first_key_value() {
            Some((key, _)) => Some(*key),
            None => None,
        }
    }

    /// Takes the entry in if its key is above `last`, the last key of the log.
    pub fn offer(&mut self, entry: Entry, last: Option<Key>) -> Result<Offer, NoMemory>
        requires fresh { IsFalse (has_id (keys_of self.old) (id_of entry.key)) }
        ensures answer { IfOk result (λ offer. offer ≡ offer_answer last entry) }
        ensures late_takes_no_memory { IsFalse (is_past last entry.key) → IsOk result }
        ensures ok { OnOk result (self.new ≡ after_offer self.old last entry) }
        ensures err { OnErr result (self.new ≡ self.old) }
    {
        if !is_past_last(&entry.key, last) {
            return Ok(Offer::Late(entry));
        }
        let key = entry.key;
        self.keys.reserve(1)?;
        self.entries.insert(key, entry)?;
        // Nothing takes memory any more.
        note_key(&mut self.keys, key);
        Ok(Offer::Taken)
    }

    /// Takes the entry of least key out if its deadline is at most the clock.
    pub fn take_due(&mut self, clock: u64) -> Option<Entry>
        ensures value { result ≡ first_if (is_due clock) self.old }
        ensures rest { self.old ≡ option_to_list result ++ self.new }
        ensures released { released self.old clock ≡ option_to_list result ++ released self.new clock }
    {
        match self.first() {
            Some(key) if key.deadline <= clock => self.take_first(),
            _ => None,
        }
    }

    /// Takes the entry of least key out if that key is not above `last`.
    pub fn take_below(&mut self, last: Key) -> Option<Entry>
        ensures value { result ≡ first_if (λ e. not (key_below last e.key)) self.old }
        ensures rest { self.old ≡ option_to_list result ++ self.new }
    {
        match self.first() {
            Some(key) if !last.is_below(&key) => self.take_first(),
            _ => None,
        }
    }

    // Takes the entry of least key out.
    fn take_first(&mut self) -> Option<Entry>
        ensures value { result ≡ first_if (λ _. true) self.old }
        ensures rest { self.old ≡ option_to_list result ++ self.new }
    {
        let (key, entry) = self.entries.pop_first()?;
        forget(&mut self.keys, key.id());
        Some(entry)
    }

    pub fn remove(&mut self, id: Id) -> Option<Entry>
        ensures value { result ≡ find_id self.old id }
        ensures held { IsSome result ↔ IsTrue (has_id (keys_of self.old) id) }
        ensures rest { self.new ≡ without self.old id }
    {
        match self.keys.swap_remove(&id) {
            Some(key) => self.entries.remove(&key),
            None => None,
        }
    }

    pub fn find(&self, id: Id) -> Option<&Entry>
        ensures value { option_copied result ≡ find_id self.now id }
        ensures held { IsSome result ↔ IsTrue (has_id (keys_of self.now) id) }
    {
        match self.keys.get(&id) {
            Some(key) => self.entries.get(key),
            None => None,
        }
    }
}

impl EarlyRep for Early {
    ghost early = { λ b. b };

    fn first(&self) -> Option<Key> {
        Early::first(self)
    }

    fn offer(&mut self, entry: Entry, last: Option<Key>) -> Result<Offer, NoMemory> {
        Early::offer(self, entry, last)
    }

    fn take_due(&mut self, clock: u64) -> Option<Entry> {
        Early::take_due(self, clock)
    }

    fn take_below(&mut self, last: Key) -> Option<Entry> {
        Early::take_below(self, last)
    }

    fn remove(&mut self, id: Id) -> Option<Entry> {
        Early::remove(self, id)
    }

    fn find(&self, id: Id) -> Option<&Entry> {
        Early::find(self, id)
    }
}

// Notes the key of an id, for which there is room.
fn note_key(keys: &mut IndexMap<Id, Key>, key: Key)
    requires { 0 < spare keys.old }
    ensures { (i : IdModel) → get id_eq keys.new i ≡ (if id_eq (id_of key) i then Some key else get id_eq keys.old i) }
{
    let _ = keys.insert(key.id(), key);
}

fn forget(keys: &mut IndexMap<Id, Key>, id: Id)
    ensures { (i : IdModel) → get id_eq keys.new i ≡ (if id_eq id i then None else get id_eq keys.old i) }
{
    let _ = keys.swap_remove(&id);
}

/// Whether a key is above the last one of a log, or the log has none.
pub fn is_past_last(key: &Key, last: Option<Key>) -> bool
    ensures { result ≡ is_past last key.now }
{
    match last {
        Some(last) => last.is_below(key),
        None => true,
    }
}
