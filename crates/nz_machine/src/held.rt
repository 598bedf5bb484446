//! The entries that a replica holds.

ghost use Rattle.std.specs.Prelude.{◌≡◌, ◌∷◌, ◌++◌, [], IsTrue, IsFalse, OnOk, OnErr, if◌then◌else◌};
ghost use Rattle.nz_base.specs.Key.{id_of};
ghost use Rattle.nz_base.specs.Log.{keys_of, has_id, is_above_last};
ghost use Rattle.nz_base.specs.declared.key.Key.{Key as KeyModel};
ghost use Rattle.nz_buffers.specs.Buffers.{is_past, insert_by_key, without};

use nz_base::{Entry, Key, NoMemory};
use nz_buffers::{Early, Late, Offer};
use nz_log::HashedLog;
use std::alloc::Global;

/// The entries that a replica holds, each in one place.
#[derive(Drop)]
pub struct Held {
    pub log: HashedLog,
    /// Those that wait for their deadline.
    pub early: Early,
    /// Those that came too late for the log.
    pub late: Late,
}

impl Held {
    pub fn new(alloc: Global) -> Held
        ensures { result ≡ record { log = record { entries = []; synced = 0 }; early = []; late = [] } }
    {
        Held {
            log: HashedLog::new(alloc),
            early: Early::new(alloc),
            late: Late::new(alloc),
        }
    }

    /// The key of the log's last entry.
    pub fn last_key(&self) -> Option<Key>
        ensures { (key : KeyModel) → is_past result key ≡ is_above_last (keys_of self.now.log.entries) key }
    {
        match self.log.last() {
            None => None,
            Some(entry) => Some(entry.key),
        }
    }

    /// The entry goes to early, and one of its id leaves late.
    pub fn keep_early(&mut self, entry: Entry) -> Result<(), NoMemory>
        requires above { IsTrue (is_above_last (keys_of self.old.log.entries) entry.key) }
        requires held { IsFalse (has_id (keys_of self.old.early) (id_of entry.key)) }
        ensures ok { OnOk result (self.new
            ≡ record self.old { early = insert_by_key self.old.early entry; late = without self.old.late (id_of entry.key) }) }
        ensures err { OnErr result (self.new ≡ self.old) }
    {
        let id = entry.key.id();
        let last = self.last_key();
        match self.early.offer(entry, last)? {
            Offer::Taken => {
                let _ = self.late.remove(id);
                Ok(())
            }
            Offer::Late(_) => unreachable!(),
        }
    }

    /// The entry goes to late, unless late holds its id.
    pub fn keep_late(&mut self, entry: Entry) -> Result<(), NoMemory>
        ensures ok { OnOk result (self.new ≡ record self.old {
          late = if has_id (keys_of self.old.late) (id_of entry.key) then self.old.late else self.old.late ++ entry ∷ [];
        }) }
        ensures err { OnErr result (self.new ≡ self.old) }
    {
        if self.late.find(entry.key.id()).is_none() {
            self.late.keep(entry)?;
        }
        Ok(())
    }
}
