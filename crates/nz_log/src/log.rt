//! A log in pages, with digests and an index of ids.

ghost use Rattle.std.specs.Prelude.{◌≡◌, ◌↔◌, ◌+◌, ◌<◌, ◌≤◌, [], ◌∷◌, ◌++◌, length, take, IsTrue, IsFalse, IsSome, Some, IfSome, IfOk, OnOk, OnErr, slice_get};
ghost use Rattle.std.specs.Option.{option_copied};
ghost use Rattle.nz_base.specs.Key.{id_of};
ghost use Rattle.nz_base.specs.Log.{keys_of, has_id, is_above_last, IsLog};
ghost use Rattle.nz_log.specs.Places.{place_of, last_entry, digest_at};
ghost use Rattle.nz_log.specs.Synced.{synced_part, log_with_synced, displaced_entries, left_out};
ghost use Rattle.nz_log.specs.Keeping.{IsNext, HaveCommonPrefix};

use super::index::{drop_places, keep_above, set_place, set_places};
use super::log_rep::{Allocating, LogRep};
use super::pages::Pages;
use super::sums::{digest_after, put_digest, put_digests};
use indexmap::IndexMap;
use nz_base::{Entry, EntryList, Id, Key, List, MAX_ENTRIES, NoMemory, TryCopy};
use nz_digest::Digest;
use std::alloc::Global;
use std::marker::Model;

/// At most 4,096 entries in the order of their keys, each request once, the first of which are
/// synced: they agree with the leader's log. Places count from 0.
#[derive(Debug, Drop)]
pub struct HashedLog {
    entries: Pages,
    // One at each place.
    digests: Vec<Digest>,
    // Of each id.
    places: IndexMap<Id, u32>,
    synced: u32,
}

impl Model for HashedLog {
    ghost use Rattle.nz_log.specs.Synced.{Log};
    ghost use Rattle.nz_log.specs.Keeping.{IsKeptLog};

    ghost Value = { Log };

    ghost view = { λ l. record { entries = l.entries; synced = l.synced } };

    ghost invariant = { λ l. IsKeptLog (record { entries = l.entries; synced = l.synced }) l.digests.items l.places.entries };
}

impl HashedLog {
    pub fn new(alloc: Global) -> HashedLog
        ensures { result ≡ record { entries = []; synced = 0 } }
    {
        HashedLog {
            entries: Pages::new(alloc),
            digests: Vec::new(alloc),
            places: IndexMap::new(alloc),
            synced: 0,
        }
    }

    pub fn len(&self) -> u32
        ensures { result ≡ length self.now.entries }
    {
        self.entries.len() as u32
    }

    pub fn is_empty(&self) -> bool
        ensures { IsTrue result ↔ (self.now.entries ≡ []) }
    {
        self.entries.len() == 0
    }

    /// How many entries are synced.
    pub fn synced(&self) -> u32
        ensures { result ≡ self.now.synced }
    {
        self.synced
    }

    pub fn get(&self, place: u32) -> &Entry
        requires { place < length self.now.entries }
        ensures { slice_get self.now.entries place ≡ Some result.now }
    {
        self.entries.get(place as usize)
    }

    pub fn last(&self) -> Option<&Entry>
        ensures { option_copied result ≡ last_entry self.now.entries }
    {
        self.entries.last()
    }

    /// The digest of the entries up to and with this place.
    pub fn digest_at(&self, place: u32) -> Digest
        requires { place < length self.now.entries }
        ensures { result ≡ digest_at self.now.entries place }
    {
        self.digests[place as usize]
    }

    /// The place of the entry with this id.
    pub fn place_of(&self, id: Id) -> Option<u32>
        ensures value { result ≡ place_of self.now.entries id }
        ensures held { IsSome result ↔ IsTrue (has_id (keys_of self.now.entries) id) }
        ensures within { IfSome result (λ place. place < length self.now.entries) }
    {
        self.places.get(&id).copied()
    }

    /// Whether a key is above that of the last entry, or there is none.
    pub fn is_above(&self, key: &Key) -> bool
        ensures { result ≡ is_above_last (keys_of self.now.entries) key.now }
    {
        match self.entries.last() {
            Some(last) => last.key.is_below(key),
            None => true,
        }
    }

    /// Whether a key is above that of the last synced entry, or there is none.
    pub fn is_above_synced(&self, key: &Key) -> bool
        ensures { result ≡ is_above_last (keys_of (synced_part self.now)) key.now }
    {
        match self.synced.checked_sub(1) {
            Some(last) => self.entries.get(last as usize).key.is_below(key),
            None => true,
        }
    }

    /// Whether a synced entry has the id.
    pub fn has_synced(&self, id: Id) -> bool
        ensures { result ≡ has_id (keys_of (synced_part self.now)) id }
    {
        match self.places.get(&id) {
            Some(place) => *place < self.synced,
            None => false,
        }
    }

    /// Puts the entry last. It is not synced.
    pub fn append(&mut self, entry: Entry) -> Result<(), NoMemory>
        requires above { IsTrue (is_above_last (keys_of self.old.entries) entry.key) }
        requires fresh { IsFalse (has_id (keys_of self.old.entries) (id_of entry.key)) }
        requires room { length self.old.entries < MAX_ENTRIES }
        ensures ok { OnOk result (self.new ≡ record self.old { entries = self.old.entries ++ entry ∷ [] }) }
        ensures err { OnErr result (self.new ≡ self.old) }
    {
        let digest = digest_after(&self.digests, &entry.key);
        let place = self.len();
        let id = entry.key.id();
        self.digests.reserve(1)?;
        self.places.reserve(1)?;
        self.entries.push(entry)?;
        // Nothing takes memory any more.
        self.digests.push_reserved(digest);
        set_place(&mut self.places, id, place);
        Ok(())
    }

    /// From now on all entries are synced.
    pub fn sync_all(&mut self)
        ensures { self.new ≡ record self.old { synced = length self.old.entries } }
    {
        self.synced = self.entries.len() as u32;
    }

    /// Puts the entry at the end of the synced part, which it joins. It answers the entries that
    /// lose their places to it, in the order of their keys.
    pub fn modify(&mut self, entry: Entry) -> Result<EntryList, NoMemory>
        requires above { IsTrue (is_above_last (keys_of (synced_part self.old)) entry.key) }
        requires fresh { IsFalse (has_id (keys_of (synced_part self.old)) (id_of entry.key)) }
        requires room { length self.old.entries < MAX_ENTRIES }
        ensures ok { OnOk result (self.new ≡ log_with_synced self.old entry) }
        ensures displaced { IfOk result (λ list. list ≡ displaced_entries self.old entry) }
        ensures err { OnErr result (self.new ≡ self.old) }
    {
        if self.has_next(&entry.key) {
            self.sync_next(entry);
            return Ok(List::new(self.entries.alloc()));
        }
        self.put_in(entry)
    }

    // Whether the first entry that is not synced has the key.
    fn has_next(&self, key: &Key) -> bool
        ensures { IsTrue result ↔ IsNext self.now key.now }
    {
        let place = self.synced as usize;
        place < self.entries.len() && self.entries.get(place).key == *key
    }

    // Puts the entry in the place of the first that is not synced, which has the same key. It joins
    // the synced part, and neither the digests nor the places change.
    fn sync_next(&mut self, entry: Entry)
        requires { IsNext self.old entry.key }
        ensures log { self.new ≡ log_with_synced self.old entry }
        ensures none { displaced_entries self.old entry ≡ [] }
    {
        let _ = self.entries.replace(self.synced as usize, entry);
        self.synced += 1;
    }

    // Puts the entry at the end of the synced part, as `modify` says.
    fn put_in(&mut self, entry: Entry) -> Result<EntryList, NoMemory>
        requires above { IsTrue (is_above_last (keys_of (synced_part self.old)) entry.key) }
        requires fresh { IsFalse (has_id (keys_of (synced_part self.old)) (id_of entry.key)) }
        requires room { length self.old.entries < MAX_ENTRIES }
        ensures ok { OnOk result (self.new ≡ log_with_synced self.old entry) }
        ensures displaced { IfOk result (λ list. list ≡ displaced_entries self.old entry) }
        ensures err { OnErr result (self.new ≡ self.old) }
    {
        let place = self.synced as usize;
        let key = entry.key;
        let displaced = self.entries.displaced_by(place, key)?;
        self.digests.reserve(1)?;
        self.places.reserve(1)?;
        self.entries.insert(place, entry)?;
        // Nothing takes memory any more.
        put_digest(&mut self.digests, &self.entries, place, key);
        set_place(&mut self.places, key.id(), self.synced);
        keep_above(&mut self.entries, &mut self.places, place + 1, key);
        self.synced += 1;
        Ok(displaced)
    }

    /// Puts the list in the place of the log. It answers the old entries whose ids are not in it.
    pub fn replace_all(&mut self, list: EntryList) -> Result<EntryList, NoMemory>
        requires log { IsLog list }
        requires few { length list ≤ MAX_ENTRIES }
        ensures ok { OnOk result (self.new ≡ record { entries = list; synced = length list }) }
        ensures left_out { IfOk result (λ old. old ≡ left_out self.old.entries list) }
        ensures err { OnErr result (self.new ≡ self.old) }
    {
        let common = self.common_prefix(list.as_slice());
        let mut others = self.entries.copies_from(common)?;
        let pages = Pages::from_list(self.entries.alloc(), list)?;
        self.take_over(common, pages)?;
        self.keep_others(&mut others);
        Ok(List::from_vec(others))
    }

    // How many entries, from the first on, have the keys of those of the list.
    fn common_prefix(&self, list: &[Entry]) -> usize
        ensures { HaveCommonPrefix self.now.entries list.now result }
    {
        for (place, entry) in list.iter().enumerate() {
            if place >= self.entries.len() || self.entries.get(place).key != entry.key {
                return place;
            }
        }
        list.len()
    }

    // Puts the entries in the place of the log. The first of them have the keys of as many of the
    // log's, whose digests and places stay.
    fn take_over(&mut self, common: usize, pages: Pages) -> Result<(), NoMemory>
        requires common { HaveCommonPrefix self.old.entries pages common }
        requires log { IsLog pages }
        requires few { length pages ≤ MAX_ENTRIES }
        ensures ok { OnOk result (self.new ≡ record { entries = pages; synced = length pages }) }
        ensures err { OnErr result (self.new ≡ self.old) }
    {
        let more = pages.len() - common;
        self.digests.reserve(more)?;
        self.places.reserve(more)?;
        // Nothing takes memory any more.
        put_digests(&mut self.digests, &pages, common);
        drop_places(&mut self.places, &self.entries, common);
        set_places(&mut self.places, &pages, common);
        self.synced = pages.len() as u32;
        self.entries = pages;
        Ok(())
    }

    // Keeps those of the entries whose ids are not in the log.
    fn keep_others(&self, entries: &mut Vec<Entry>)
        ensures { entries.new.items ≡ left_out entries.old.items self.now.entries }
    {
        entries.retain(|entry| self.place_of(entry.key.id()).is_none());
    }

    /// Copies of the entries.
    pub fn entries(&self) -> Result<EntryList, NoMemory>
        ensures { IfOk result (λ list. list ≡ self.now.entries) }
    {
        self.entries.copies()
    }
}

impl Allocating for HashedLog {
    fn alloc(&self) -> Global {
        self.entries.alloc()
    }
}

impl LogRep for HashedLog {
    ghost log = { λ l. l };

    fn len(&self) -> u32 {
        HashedLog::len(self)
    }

    fn synced(&self) -> u32 {
        let _ = &self.entries;
        HashedLog::synced(self)
    }

    fn get(&self, place: u32) -> &Entry {
        HashedLog::get(self, place)
    }

    fn digest_at(&self, place: u32) -> Digest {
        HashedLog::digest_at(self, place)
    }

    fn place_of(&self, id: Id) -> Option<u32> {
        HashedLog::place_of(self, id)
    }

    fn append(&mut self, entry: Entry) -> Result<(), NoMemory> {
        HashedLog::append(self, entry)
    }

    fn sync_all(&mut self) {
        HashedLog::sync_all(self);
    }

    fn modify(&mut self, entry: Entry) -> Result<EntryList, NoMemory> {
        HashedLog::modify(self, entry)
    }

    fn replace_all(&mut self, list: EntryList) -> Result<EntryList, NoMemory> {
        HashedLog::replace_all(self, list)
    }

    fn entries(&self) -> Result<EntryList, NoMemory> {
        HashedLog::entries(self)
    }
}
