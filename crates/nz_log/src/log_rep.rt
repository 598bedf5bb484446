//! What a log is to its callers.

ghost use Rattle.std.specs.Prelude.{◌≡◌, ◌↔◌, ◌<◌, ◌≤◌, ◌∷◌, ◌++◌, [], length, IsTrue, IsFalse, IsSome, Some, IfSome, IfOk, OnOk, OnErr, slice_get};
ghost use Rattle.nz_base.specs.Key.{id_of};
ghost use Rattle.nz_base.specs.Log.{keys_of, has_id, is_above_last, IsLog};
ghost use Rattle.nz_log.specs.Places.{place_of, digest_at};
ghost use Rattle.nz_log.specs.Synced.{Log, synced_part, log_with_synced, displaced_entries, left_out};

use nz_base::{Entry, EntryList, Id, MAX_ENTRIES, NoMemory};
use nz_digest::Digest;
use std::alloc::Global;

/// What takes memory, and says where from.
pub trait Allocating {
    fn alloc(&self) -> Global;
}

/// A log in some representation. A clause sees the entries, and how many of them are synced.
pub trait LogRep: Allocating {
    ghost log: { Self → Log };

    fn len(&self) -> u32
        ensures { result ≡ length (log self.now).entries };

    /// How many entries are synced.
    fn synced(&self) -> u32
        ensures value { result ≡ (log self.now).synced }
        ensures within { result ≤ length (log self.now).entries };

    fn get(&self, place: u32) -> &Entry
        requires { place < length (log self.now).entries }
        ensures { slice_get (log self.now).entries place ≡ Some result.now };

    /// The digest of the entries up to and with this place.
    fn digest_at(&self, place: u32) -> Digest
        requires { place < length (log self.now).entries }
        ensures { result ≡ digest_at (log self.now).entries place };

    /// The place of the entry with this id.
    fn place_of(&self, id: Id) -> Option<u32>
        ensures value { result ≡ place_of (log self.now).entries id }
        ensures held { IsSome result ↔ IsTrue (has_id (keys_of (log self.now).entries) id) }
        ensures within { IfSome result (λ place. place < length (log self.now).entries) };

    /// Puts the entry last. It is not synced.
    fn append(&mut self, entry: Entry) -> Result<(), NoMemory>
        requires above { IsTrue (is_above_last (keys_of (log self.old).entries) entry.key) }
        requires fresh { IsFalse (has_id (keys_of (log self.old).entries) (id_of entry.key)) }
        requires room { length (log self.old).entries < MAX_ENTRIES }
        ensures ok { OnOk result (log self.new ≡ record (log self.old) { entries = (log self.old).entries ++ entry ∷ [] }) }
        ensures err { OnErr result (log self.new ≡ log self.old) };

    /// From now on all entries are synced.
    fn sync_all(&mut self)
        ensures { log self.new ≡ record (log self.old) { synced = length (log self.old).entries } };

    /// Puts the entry at the end of the synced part, which it joins. It answers the entries that
    /// lose their places to it, in the order of their keys.
    fn modify(&mut self, entry: Entry) -> Result<EntryList, NoMemory>
        requires above { IsTrue (is_above_last (keys_of (synced_part (log self.old))) entry.key) }
        requires fresh { IsFalse (has_id (keys_of (synced_part (log self.old))) (id_of entry.key)) }
        requires room { length (log self.old).entries < MAX_ENTRIES }
        ensures ok { OnOk result (log self.new ≡ log_with_synced (log self.old) entry) }
        ensures displaced { IfOk result (λ list. list ≡ displaced_entries (log self.old) entry) }
        ensures err { OnErr result (log self.new ≡ log self.old) };

    /// Puts the list in the place of the log. It answers the old entries whose ids are not in it.
    fn replace_all(&mut self, list: EntryList) -> Result<EntryList, NoMemory>
        requires log { IsLog list }
        requires few { length list ≤ MAX_ENTRIES }
        ensures ok { OnOk result (log self.new ≡ record { entries = list; synced = length list }) }
        ensures left_out { IfOk result (λ old. old ≡ left_out (log self.old).entries list) }
        ensures err { OnErr result (log self.new ≡ log self.old) };

    /// Copies of the entries.
    fn entries(&self) -> Result<EntryList, NoMemory>
        ensures { IfOk result (λ list. list ≡ (log self.now).entries) };
}
