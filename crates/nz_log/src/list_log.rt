//! A log as a plain list.

ghost use Rattle.std.specs.Prelude.{◌≡◌, []};

use super::entries::{copy_displaced, copy_left_out, digest_of, put_at};
use super::log_rep::{Allocating, LogRep};
use nz_base::{Entry, EntryList, Id, List, NoMemory, first_place};
use nz_digest::Digest;
use std::alloc::Global;
use std::marker::Model;

/// A log as a plain list: the digest is folded over the list each time, and an id's place is found
/// by walking.
#[derive(Debug, Drop)]
pub struct ListLog {
    entries: Vec<Entry>,
    synced: u32,
}

impl Model for ListLog {
    ghost use Rattle.nz_log.specs.Synced.{Log, IsSound};

    ghost Value = { Log };

    ghost view = { λ l. record { entries = l.entries.items; synced = l.synced } };

    ghost invariant = { λ l. IsSound (record { entries = l.entries.items; synced = l.synced }) };
}

impl ListLog {
    pub fn new(alloc: Global) -> ListLog
        ensures { result ≡ record { entries = []; synced = 0 } }
    {
        ListLog {
            entries: Vec::new(alloc),
            synced: 0,
        }
    }
}

impl Allocating for ListLog {
    fn alloc(&self) -> Global {
        *self.entries.allocator()
    }
}

impl LogRep for ListLog {
    ghost log = { λ l. l };

    fn len(&self) -> u32 {
        self.entries.len() as u32
    }

    fn synced(&self) -> u32 {
        self.synced
    }

    fn get(&self, place: u32) -> &Entry {
        &self.entries[place as usize]
    }

    fn digest_at(&self, place: u32) -> Digest {
        digest_of(&self.entries[..place as usize + 1])
    }

    fn place_of(&self, id: Id) -> Option<u32> {
        match first_place(&self.entries, id) {
            Some(place) => Some(place as u32),
            None => None,
        }
    }

    fn append(&mut self, entry: Entry) -> Result<(), NoMemory> {
        self.entries.push(entry)?;
        Ok(())
    }

    fn sync_all(&mut self) {
        self.synced = self.entries.len() as u32;
    }

    fn modify(&mut self, entry: Entry) -> Result<EntryList, NoMemory> {
        let place = self.synced as usize;
        let alloc = *self.entries.allocator();
        let displaced = copy_displaced(alloc, &self.entries[place..], entry.key)?;
        put_at(&mut self.entries, place, entry)?;
        self.synced += 1;
        Ok(displaced)
    }

    fn replace_all(&mut self, list: EntryList) -> Result<EntryList, NoMemory> {
        let alloc = *self.entries.allocator();
        let left_out = copy_left_out(alloc, &self.entries, list.as_slice())?;
        self.synced = list.len();
        self.entries = list.into_vec();
        Ok(left_out)
    }

    fn entries(&self) -> Result<EntryList, NoMemory> {
        List::from_slice(*self.entries.allocator(), &self.entries)
    }
}
