//! The early buffer as a plain list.

ghost use Rattle.std.specs.Prelude.{◌≡◌, [], IfOk};

use super::early::{Offer, is_past_last};
use super::early_rep::EarlyRep;
use super::places::{find, put_by_key, take_out};
use nz_base::{Entry, Id, Key, NoMemory};
use std::alloc::Global;
use std::marker::Model;

/// The entries that wait for their deadlines, as a plain list: an entry goes to its place by
/// walking, and an id is found so.
#[derive(Debug, Drop)]
pub struct ListEarly {
    entries: Vec<Entry>,
}

impl Model for ListEarly {
    ghost use Rattle.std.specs.Prelude.{List};
    ghost use Rattle.nz_base.specs.declared.key.Entry.{Entry as EntryModel};
    ghost use Rattle.nz_base.specs.Log.{IsLog};

    ghost Value = { List EntryModel };

    ghost view = { λ b. b.entries.items };

    ghost invariant = { λ b. IsLog b.entries.items };
}

impl ListEarly {
    pub fn new(alloc: Global) -> ListEarly
        ensures { result ≡ [] }
    {
        ListEarly {
            entries: Vec::new(alloc),
        }
    }
}

impl EarlyRep for ListEarly {
    ghost early = { λ b. b };

    fn first(&self) -> Option<Key> {
        self.entries.first().map(|entry| entry.key)
    }

    fn offer(&mut self, entry: Entry, last: Option<Key>) -> Result<Offer, NoMemory> {
        if !is_past_last(&entry.key, last) {
            return Ok(Offer::Late(entry));
        }
        put_by_key(&mut self.entries, entry)?;
        Ok(Offer::Taken)
    }

    fn take_due(&mut self, clock: u64) -> Option<Entry> {
        if self.entries.is_empty() || self.entries[0].key.deadline > clock {
            return None;
        }
        Some(self.entries.remove(0))
    }

    fn take_below(&mut self, last: Key) -> Option<Entry> {
        if self.entries.is_empty() || last.is_below(&self.entries[0].key) {
            return None;
        }
        Some(self.entries.remove(0))
    }

    fn remove(&mut self, id: Id) -> Option<Entry> {
        take_out(&mut self.entries, id)
    }

    fn find(&self, id: Id) -> Option<&Entry> {
        find(&self.entries, id)
    }
}
