//! The late buffer.

ghost use Rattle.std.specs.Prelude.{◌≡◌, [], ◌∷◌, ◌++◌, ◌↔◌, length, IsTrue, IsFalse, IsSome, OnOk, OnErr};
ghost use Rattle.std.specs.Option.{option_copied};
ghost use Rattle.nz_base.specs.Key.{id_of};
ghost use Rattle.nz_base.specs.Log.{keys_of, has_id, HaveOwnIds};
ghost use Rattle.nz_buffers.specs.Buffers.{find_id, without};

use indexmap::IndexMap;
use nz_base::{Entry, Id, Key, NoMemory};
use std::alloc::Global;
use std::marker::Model;

/// The entries that came too late for their places in the log. A clause sees the list of them as
/// they came.
#[derive(Debug, Drop)]
pub struct Late {
    entries: IndexMap<Id, Entry>,
}

impl Model for Late {
    ghost use Rattle.std.specs.Prelude.{List};
    ghost use Rattle.nz_base.specs.declared.key.Entry.{Entry as EntryModel};
    ghost use Rattle.std.specs.Map.{values_of};
    ghost use Rattle.nz_buffers.specs.Keeping.{AreByIds};

    ghost Value = { List EntryModel };

    ghost view = { λ b. values_of b.entries.entries };

    ghost invariant = { λ b. AreByIds b.entries.entries };
}

impl Late {
    pub fn new(alloc: Global) -> Late
        ensures { result ≡ [] }
    {
        Late {
            entries: IndexMap::new(alloc),
        }
    }

    pub fn len(&self) -> usize
        ensures { result ≡ length self.now }
    {
        self.entries.len()
    }

    pub fn is_empty(&self) -> bool
        ensures { IsTrue result ↔ (self.now ≡ []) }
    {
        self.entries.is_empty()
    }

    /// Puts the keys, in the order in which they came, after those of the list.
    pub fn append_keys(&self, keys: &mut Vec<Key>) -> Result<(), NoMemory>
        ensures { OnOk result (keys.new.items ≡ keys.old.items ++ keys_of self.now) }
    {
        for (_, entry) in &self.entries {
            keys.push(entry.key)?;
        }
        Ok(())
    }

    /// Puts the entry last.
    pub fn keep(&mut self, entry: Entry) -> Result<(), NoMemory>
        requires fresh { IsFalse (has_id (keys_of self.old) (id_of entry.key)) }
        ensures ok { OnOk result (self.new ≡ self.old ++ entry ∷ []) }
        ensures err { OnErr result (self.new ≡ self.old) }
    {
        self.entries.insert(entry.key.id(), entry)?;
        Ok(())
    }

    pub fn remove(&mut self, id: Id) -> Option<Entry>
        ensures value { result ≡ find_id self.old id }
        ensures held { IsSome result ↔ IsTrue (has_id (keys_of self.old) id) }
        ensures rest { self.new ≡ without self.old id }
    {
        self.entries.shift_remove(&id)
    }

    pub fn find(&self, id: Id) -> Option<&Entry>
        ensures value { option_copied result ≡ find_id self.now id }
        ensures held { IsSome result ↔ IsTrue (has_id (keys_of self.now) id) }
    {
        self.entries.get(&id)
    }
}
