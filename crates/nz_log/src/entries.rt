//! Searching and changing a plain list of entries.

ghost use Rattle.std.specs.Prelude.{◌≡◌, ◌↔◌, ◌+◌, ◌≤◌, ◌<◌, ◌∷◌, ◌++◌, length, take, drop, filter, vec_len};
ghost use Rattle.std.specs.Prelude.{IfOk, OnOk, OnErr, IfSome, IfNone, IsSome, IsTrue, IsFalse};
ghost use Rattle.nz_base.specs.Log.{keys_of, has_id, is_above_last};
ghost use Rattle.nz_log.specs.Places.{digest_of_log};
ghost use Rattle.nz_log.specs.Synced.{stays_after, is_displaced, left_out};

use nz_base::{Entry, EntryList, Id, Key, List, MAX_ENTRIES, NoMemory, TryCopy, first_place};
use nz_digest::Digest;
use std::alloc::Global;

/// The digest of the entries.
pub fn digest_of(entries: &[Entry]) -> Digest
    ensures { result ≡ digest_of_log entries.now }
{
    let mut digest = Digest::zero();
    for entry in entries {
        let key = &entry.key;
        digest.fold_in(&Digest::of_entry(key.deadline, key.client, key.num));
    }
    digest
}

/// Whether an entry has the id.
pub fn contains(entries: &[Entry], id: Id) -> bool
    ensures { result ≡ has_id (keys_of entries.now) id }
{
    first_place(entries, id).is_some()
}

/// Whether a key is above that of the last entry, or there is none.
pub fn is_above(entries: &[Entry], key: &Key) -> bool
    ensures { result ≡ is_above_last (keys_of entries.now) key.now }
{
    match entries.last() {
        Some(last) => last.key.is_below(key),
        None => true,
    }
}

/// Whether an entry stays after one with this key.
pub fn stays_after(key: &Key, entry: &Entry) -> bool
    ensures { result ≡ stays_after key.now entry.now }
{
    key.is_below(&entry.key) && key.id() != entry.key.id()
}

/// Whether an entry loses its place to one with this key.
pub fn is_displaced(key: &Key, entry: &Entry) -> bool
    ensures { result ≡ is_displaced key.now entry.now }
{
    !key.is_below(&entry.key) && key.id() != entry.key.id()
}

/// Copies of the entries that lose their places to one with this key.
pub fn copy_displaced(alloc: Global, entries: &[Entry], key: Key) -> Result<EntryList, NoMemory>
    ensures { IfOk result (λ list. list ≡ filter (is_displaced key) entries.now) }
{
    let mut list = List::new(alloc);
    for entry in entries {
        if is_displaced(&key, entry) {
            list.push(entry.copy(alloc)?)?;
        }
    }
    Ok(list)
}

/// Copies of the entries whose ids are not in a list.
pub fn copy_left_out(
    alloc: Global,
    entries: &[Entry],
    kept: &[Entry],
) -> Result<EntryList, NoMemory>
    ensures { IfOk result (λ list. list ≡ left_out entries.now kept.now) }
{
    let mut list = List::new(alloc);
    for entry in entries {
        if !contains(kept, entry.key.id()) {
            list.push(entry.copy(alloc)?)?;
        }
    }
    Ok(list)
}

// Of the entries from a place on keeps those that stay after one with this key.
fn keep_after(entries: &mut Vec<Entry>, from: usize, key: Key)
    requires { from ≤ vec_len entries.old }
    ensures { entries.new.items ≡ take from entries.old.items
        ++ filter (stays_after key) (drop from entries.old.items) }
{
    let mut place = from;
    while place < entries.len() {
        if stays_after(&key, &entries[place]) {
            place += 1;
        } else {
            entries.remove(place);
        }
    }
}

/// Puts the entry at a place, and keeps of those from there on what stays after it.
pub fn put_at(entries: &mut Vec<Entry>, place: usize, entry: Entry) -> Result<(), NoMemory>
    requires within { place ≤ vec_len entries.old }
    requires few { vec_len entries.old < MAX_ENTRIES }
    ensures ok { OnOk result (entries.new.items ≡ take place entries.old.items
        ++ entry ∷ filter (stays_after entry.key) (drop place entries.old.items)) }
    ensures err { OnErr result (entries.new.items ≡ entries.old.items) }
{
    let key = entry.key;
    entries.insert(place, entry)?;
    keep_after(entries, place + 1, key);
    Ok(())
}
