//! The place of each id of a log.

ghost use Rattle.std.specs.Prelude.{◌≡◌, ◌+◌, ◌≤◌, ◌<◌, ◌^◌, ◌⊎◌, ◌++◌, length, take, drop, filter, Some, None, IsSome, if◌then◌else◌};
ghost use Rattle.indexmap.specs.IndexMap.{get, spare};
ghost use Rattle.nz_base.specs.declared.key.Id.{Id as IdModel};
ghost use Rattle.nz_base.specs.Key.{id_eq};
ghost use Rattle.nz_base.specs.Log.{IsLog};
ghost use Rattle.nz_log.specs.Places.{place_of};
ghost use Rattle.nz_log.specs.Synced.{stays_after};
ghost use Rattle.nz_log.specs.Keeping.{IsMidway};

use super::pages::Pages;
use indexmap::IndexMap;
use nz_base::{Id, Key};

/// Notes the place of an id that has one already, or for which there is room.
pub fn set_place(places: &mut IndexMap<Id, u32>, id: Id, place: u32)
    requires { IsSome (get id_eq places.old id) ⊎ (0 < spare places.old) }
    ensures value { (i : IdModel) → get id_eq places.new i ≡ (if id_eq id i then Some place else get id_eq places.old i) }
    ensures room { spare places.old ≤ spare places.new + 1 }
{
    let _ = places.insert(id, place);
}

/// Forgets an id.
pub fn drop_place(places: &mut IndexMap<Id, u32>, id: Id)
    ensures value { (i : IdModel) → get id_eq places.new i ≡ (if id_eq id i then None else get id_eq places.old i) }
    ensures room { spare places.old ≤ spare places.new }
{
    let _ = places.swap_remove(&id);
}

/// Forgets the ids of the entries from a place on. The last one goes first, so that where they were
/// noted in order none of the others moves in the index.
pub fn drop_places(places: &mut IndexMap<Id, u32>, entries: &Pages, from: usize)
    requires within { from ≤ length entries.now }
    requires log { IsLog entries.now }
    requires right { (i : IdModel) → get id_eq places.old i ≡ place_of entries.now i }
    ensures places { (i : IdModel) → get id_eq places.new i ≡ place_of (take from entries.now) i }
    ensures room { spare places.old ≤ spare places.new }
{
    for place in (from..entries.len()).rev() {
        drop_place(places, entries.get(place).key.id());
    }
}

/// Notes the places of the entries from a place on, for which there is room.
pub fn set_places(places: &mut IndexMap<Id, u32>, entries: &Pages, from: usize)
    requires within { from ≤ length entries.now }
    requires log { IsLog entries.now }
    requires few { length entries.now < 2 ^ 32 }
    requires room { length entries.now ≤ from + spare places.old }
    requires first { (i : IdModel) → get id_eq places.old i ≡ place_of (take from entries.now) i }
    ensures { (i : IdModel) → get id_eq places.new i ≡ place_of entries.now i }
{
    for place in from..entries.len() {
        set_place(places, entries.get(place).key.id(), place as u32);
    }
}

/// Of the entries from a place on keeps those that may follow one with this key, and notes where.
pub fn keep_above(entries: &mut Pages, places: &mut IndexMap<Id, u32>, from: usize, key: Key)
    requires within { from ≤ length entries.old }
    requires few { length entries.old < 2 ^ 32 }
    requires midway { IsMidway key (take from entries.old) (drop from entries.old) (get id_eq places.old) }
    ensures entries { entries.new ≡ take from entries.old ++ filter (stays_after key) (drop from entries.old) }
    ensures places { (i : IdModel) → get id_eq places.new i ≡ place_of entries.new i }
{
    let mut kept = from;
    for place in from..entries.len() {
        let other = entries.get(place).key;
        if key.id() == other.id() {
            continue;
        }
        if key.is_below(&other) {
            set_place(places, other.id(), kept as u32);
            entries.move_down(place, kept);
            kept += 1;
        } else {
            drop_place(places, other.id());
        }
    }
    entries.truncate(kept);
}
