//! How a follower takes the keys of a log modification.

ghost use Rattle.std.specs.Prelude.{◌≡◌, ◌<◌, ◌≤◌, ◌∷◌, ◌++◌, List, not, length, drop, filter, IsTrue, IsFalse, IfOk, OnOk};
ghost use Rattle.std.specs.Option.{option_copied, option_map};
ghost use Rattle.std.specs.List.{AllByRecursion};
ghost use Rattle.nz_base.specs.Key.{key_below, id_of};
ghost use Rattle.nz_base.specs.Log.{keys_of, has_id, is_above_last, AreRising, HaveOwnIds};
ghost use Rattle.nz_base.specs.declared.key.Key.{Key as KeyModel};
ghost use Rattle.nz_base.specs.declared.key.Entry.{Entry as EntryModel};
ghost use Rattle.nz_log.specs.Synced.{synced_part, unsynced_part, log_with_synced, displaced_entries};
ghost use Rattle.nz_buffers.specs.Buffers.{find_id, without};
ghost use Rattle.nz_msg.specs.Fields as fields;
ghost use Rattle.nz_machine.specs.rules.State.{ReplicaData};
ghost use Rattle.nz_machine.specs.rules.Facts.{FitsEntry, AreApart};
ghost use Rattle.nz_machine.specs.rules.LogMods.{sync_keys, overtaken_to_late};
ghost use Rattle.nz_machine.specs.rules.Taking.{may_join, found_in, with_held, after_first};

use super::held::Held;
use nz_base::{Blob, Entry, EntryList, Id, Key, MAX_ENTRIES, NoMemory, TryCopy};
use nz_buffers::{Early, Late};
use nz_log::HashedLog;
use std::alloc::Global;

/// What became of a key.
pub enum Taken {
    Synced,
    /// No entry has its id.
    Missing,
    /// It may not be the next that is synced.
    Refused,
}

/// Whether the key may be the next that is synced.
fn may_sync(log: &HashedLog, key: &Key) -> bool
    ensures { result ≡ may_join log.now key.now }
{
    log.is_above_synced(key) && !log.has_synced(key.id()) && log.len() < MAX_ENTRIES
}

/// The entry with the id beyond the synced ones of the log.
fn find_unsynced(log: &HashedLog, id: Id) -> Option<&Entry>
    requires { IsFalse (has_id (keys_of (synced_part log.now)) id) }
    ensures { option_copied result ≡ find_id (unsynced_part log.now) id }
{
    match log.place_of(id) {
        None => None,
        Some(place) => Some(log.get(place)),
    }
}

/// Puts the entries after the others.
pub fn keep_each(late: &mut Late, entries: EntryList) -> Result<(), NoMemory>
    requires { HaveOwnIds (keys_of (late.old ++ entries)) }
    ensures { OnOk result (late.new ≡ late.old ++ entries) }
{
    for entry in entries.into_vec() {
        late.keep(entry)?;
    }
    Ok(())
}

/// Moves the early entries whose key is not above `last` to late.
fn move_below(last: Key, early: &mut Early, late: &mut Late) -> Result<(), NoMemory>
    requires waiting { AreRising (keys_of early.old) }
    requires own { HaveOwnIds (keys_of (early.old ++ late.old)) }
    ensures early { OnOk result (early.new ≡ filter (λ (e : EntryModel). key_below last e.key) early.old) }
    ensures late { OnOk result (late.new ≡ late.old ++ filter (λ (e : EntryModel). not (key_below last e.key)) early.old) }
{
    'below: while let Some(entry) = early.take_below(last) {
        late.keep(entry)?;
    }
    Ok(())
}

impl Held {
    /// The command of the entry with the id: beyond the synced ones of the log, in early or in late.
    fn command_of(&self, alloc: Global, id: Id) -> Result<Option<Blob>, NoMemory>
        requires { IsFalse (has_id (keys_of (synced_part self.now.log)) id) }
        ensures { IfOk result (λ command. command
            ≡ option_map (λ (e : EntryModel). e.command) (found_in self.now.log self.now.early self.now.late id)) }
    {
        let found = find_unsynced(&self.log, id)
            .or(self.early.find(id))
            .or(self.late.find(id));
        match found {
            None => Ok(None),
            Some(entry) => Ok(Some(entry.command.copy(alloc)?)),
        }
    }

    /// Puts the entry at the end of the synced part. What loses its place to it goes to late.
    fn sync_entry(&mut self, entry: Entry) -> Result<(), NoMemory>
        requires apart { AreApart self.old.log self.old.early self.old.late }
        requires above { IsTrue (is_above_last (keys_of (synced_part self.old.log)) entry.key) }
        requires fresh { IsFalse (has_id (keys_of (synced_part self.old.log)) (id_of entry.key)) }
        requires room { length self.old.log.entries < MAX_ENTRIES }
        ensures log { OnOk result (self.new.log ≡ log_with_synced self.old.log entry) }
        ensures early { OnOk result (self.new.early ≡ without self.old.early (id_of entry.key)) }
        ensures late { OnOk result (self.new.late ≡ without (self.old.late ++ displaced_entries self.old.log entry) (id_of entry.key)) }
    {
        let id = entry.key.id();
        let displaced = self.log.modify(entry)?;
        let _ = self.early.remove(id);
        let _ = self.late.remove(id);
        keep_each(&mut self.late, displaced)
    }

    /// Takes one key, with the command that is found for its id.
    #[tactic(auto, unfolding(crate::specs::rules::LogMods::sync_keys))]
    fn take_key(&mut self, alloc: Global, key: Key) -> Result<Taken, NoMemory>
        requires apart { AreApart self.old.log self.old.early self.old.late }
        requires fit { fields.key.fits key }
        ensures apart { OnOk result (AreApart self.new.log self.new.early self.new.late) }
        ensures taken { (s : ReplicaData) (keys : List KeyModel)
            → IfOk result (λ taken. sync_keys (with_held s self.old) (key ∷ keys) ≡ after_first taken (with_held s self.new) key keys) }
    {
        if !may_sync(&self.log, &key) {
            return Ok(Taken::Refused);
        }
        match self.command_of(alloc, key.id())? {
            None => Ok(Taken::Missing),
            Some(command) => {
                self.sync_entry(Entry { key, command })?;
                Ok(Taken::Synced)
            }
        }
    }

    /// Takes the keys in turn. Gives the place of the first of them that is missing, or their count.
    fn take_keys(&mut self, alloc: Global, keys: &[Key]) -> Result<usize, NoMemory>
        requires apart { AreApart self.old.log self.old.early self.old.late }
        requires fit { AllByRecursion fields.key.fits keys.now }
        ensures apart { OnOk result (AreApart self.new.log self.new.early self.new.late) }
        ensures within { IfOk result (λ place. place ≤ length keys.now) }
        ensures taken { (s : ReplicaData)
            → IfOk result (λ place. sync_keys (with_held s self.old) keys.now ≡ (with_held s self.new, drop place keys.now)) }
    {
        for (place, key) in keys.iter().enumerate() {
            match self.take_key(alloc, *key)? {
                Taken::Synced => (),
                Taken::Missing => return Ok(place),
                Taken::Refused => return Ok(keys.len()),
            }
        }
        Ok(keys.len())
    }

    /// Moves the early entries whose key is not above the log's last to late.
    pub fn pass_over(&mut self) -> Result<(), NoMemory>
        requires { AreApart self.old.log self.old.early self.old.late }
        ensures { OnOk result (self.new ≡ record self.old {
          early = filter (λ (e : EntryModel). is_above_last (keys_of self.old.log.entries) e.key) self.old.early;
          late = self.old.late ++ filter (λ (e : EntryModel). not (is_above_last (keys_of self.old.log.entries) e.key)) self.old.early;
        }) }
    {
        match self.last_key() {
            None => Ok(()),
            Some(last) => move_below(last, &mut self.early, &mut self.late),
        }
    }

    /// Takes the keys, and moves what is no longer early to late. Gives the place of the first key that is missing, or
    /// their count.
    pub fn sync(&mut self, alloc: Global, keys: &[Key]) -> Result<usize, NoMemory>
        requires apart { AreApart self.old.log self.old.early self.old.late }
        requires fit { AllByRecursion fields.key.fits keys.now }
        ensures within { IfOk result (λ place. place ≤ length keys.now) }
        ensures held { (s : ReplicaData) → OnOk result (overtaken_to_late (sync_keys (with_held s self.old) keys.now).0 ≡ with_held s self.new) }
        ensures missing { (s : ReplicaData) → IfOk result (λ place. (sync_keys (with_held s self.old) keys.now).1 ≡ drop place keys.now) }
    {
        let place = self.take_keys(alloc, keys)?;
        self.pass_over()?;
        Ok(place)
    }
}
