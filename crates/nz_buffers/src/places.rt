//! Plain work on the entries of a buffer.

ghost use Rattle.std.specs.Prelude.{◌≡◌, ◌+◌, ◌≤◌, length, OnOk, OnErr, ◌↔◌, IfSome, IfNone, IsSome, IsTrue, IsFalse};
ghost use Rattle.std.specs.Option.{option_copied};
ghost use Rattle.nz_base.specs.Log.{keys_of, has_id, HaveOwnIds};
ghost use Rattle.nz_buffers.specs.Buffers.{find_id, without, insert_by_key};
ghost use Rattle.nz_buffers.specs.Places.{key_place_from};

use nz_base::{Entry, Id, Key, NoMemory, first_place};

pub fn find(entries: &[Entry], id: Id) -> Option<&Entry>
    ensures { option_copied result ≡ find_id entries.now id }
{
    entries.iter().find(|entry| id == entry.key.id())
}

pub fn take_out(entries: &mut Vec<Entry>, id: Id) -> Option<Entry>
    requires { HaveOwnIds (keys_of entries.old.items) }
    ensures value { result ≡ find_id entries.old.items id }
    ensures held { IsSome result ↔ IsTrue (has_id (keys_of entries.old.items) id) }
    ensures rest { entries.new.items ≡ without entries.old.items id }
{
    match first_place(entries, id) {
        Some(place) => Some(entries.remove(place)),
        None => None,
    }
}

fn key_place(entries: &[Entry], key: &Key) -> usize
    ensures within { result ≤ length entries.now }
    ensures place { result ≡ key_place_from 0 entries.now key.now }
{
    let mut place = 0;
    while place < entries.len() && !key.is_below(&entries[place].key) {
        place += 1;
    }
    place
}

pub fn put_by_key(entries: &mut Vec<Entry>, entry: Entry) -> Result<(), NoMemory>
    ensures ok { OnOk result (entries.new.items ≡ insert_by_key entries.old.items entry) }
    ensures err { OnErr result (entries.new.items ≡ entries.old.items) }
{
    let place = key_place(entries, &entry.key);
    entries.insert(place, entry)?;
    Ok(())
}
