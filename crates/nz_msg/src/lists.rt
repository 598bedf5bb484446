//! Reading of lists, with their count before them.

ghost use Rattle.std.specs.Prelude.{◌≡◌, ◌<◌, ◌≤◌, ◌/◌, [], ◌&&◌, not, take, length, min, IfOk, IfErr, IfSome, Ok, IsTrue};
ghost use Rattle.std.specs.List.{list_all};
ghost use Rattle.nz_base.specs.Key.{key_below, id_of, id_eq};
ghost use Rattle.nz_cv.specs.Vectors.{IsClusterSize};
ghost use Rattle.nz_msg.specs.Codec.{items_at, with_limit, number};
ghost use Rattle.nz_msg.specs.Fields as fields;
ghost use Rattle.nz_msg.specs.Fields.{u32, id, vector, next_key_by, next_key, next_entry, ids, keys, entries};
ghost use Rattle.nz_msg.specs.Reading.{Gives, Fails, AreNoted};

use super::fault::Fault;
use super::reading::{command_at, id_at, key_at, u8_at, u8_within, u32_at, u32_within};
use super::rest::Rest;
use super::rising_ids::{RisingIds, is_above};
use indexmap::IndexSet;
use nz_base::{Entry, EntryList, Id, IdList, Key, KeyList, MAX_KEYS, MAX_REPLICAS};
use nz_cv::CrashVector;
use std::alloc::Global;

/// The fewest bytes of an id, a key and an entry: its key, the length of its command, and one byte.
const ID_SIZE: u8 = 8;

const KEY_SIZE: u8 = 16;

const ENTRY_SIZE: u8 = 19;

// How many items a list takes room for: as many as are counted, but no more than the bytes left can hold,
// each at least so large. So a count alone takes no memory.
fn room_for(count: u32, size: u8, left: usize) -> u32
    requires { 0 < size }
    ensures { result ≡ min count (left / size) }
{
    let most = left / usize::from(size);
    if most < count as usize {
        most as u32
    } else {
        count
    }
}

/// Whether a cluster has this many replicas.
pub fn is_cluster_size(size: usize) -> bool
    ensures { result ≡ fields.is_cluster_size size }
{
    matches!(size, 3 | 5 | 7 | 9)
}

#[tactic(auto, unfolding(crate::specs::Codec::limited_at))]
fn size_at(bytes: Rest<'_>) -> Result<(u8, Rest<'_>), Fault>
    ensures size { Gives (λ x. x) result ((with_limit fields.is_cluster_size (number 1)).get bytes.entry) }
    ensures cluster { IfOk result (λ x. IsClusterSize x.0) }
{
    let left = bytes.len();
    let (size, rest) = u8_at(bytes)?;
    if !is_cluster_size(usize::from(size)) {
        return Err(Fault::Bad(left));
    }
    Ok((size, rest))
}

fn counters_at(size: u8, bytes: Rest<'_>) -> Result<([u32; MAX_REPLICAS], Rest<'_>), Fault>
    requires { size ≤ MAX_REPLICAS }
    ensures { Gives (λ x. (take size x.0, x.1)) result (items_at (λ _. u32) [] size bytes.entry) }
{
    let mut counters = [0; MAX_REPLICAS];
    let mut rest = bytes;
    for place in 0..size {
        let (counter, after) = u32_at(rest)?;
        counters[place as usize] = counter;
        rest = after;
    }
    Ok((counters, rest))
}

pub fn vector_at(bytes: Rest<'_>) -> Result<(CrashVector, Rest<'_>), Fault>
    ensures { Gives (λ x. x) result (vector.get bytes.entry) }
{
    let (size, rest) = size_at(bytes)?;
    let (counters, rest) = counters_at(size, rest)?;
    match CrashVector::from_slice(&counters[..size as usize]) {
        Some(vector) => Ok((vector, rest)),
        None => unreachable!(),
    }
}

fn list_of_ids(alloc: Global, count: u32, bytes: Rest<'_>) -> Result<(IdList, Rest<'_>), Fault>
    ensures { Gives (λ x. x) result (items_at (λ _. id) [] count bytes.entry) }
{
    let mut ids = IdList::with_capacity(alloc, room_for(count, ID_SIZE, bytes.len()))?;
    let mut rest = bytes;
    for _ in 0..count {
        let (id, after) = id_at(rest)?;
        ids.push(id)?;
        rest = after;
    }
    Ok((ids, rest))
}

pub fn ids_at(alloc: Global, bytes: Rest<'_>) -> Result<(IdList, Rest<'_>), Fault>
    ensures { Gives (λ x. x) result (ids.get bytes.entry) }
{
    let (count, rest) = u8_within(bytes, 1, MAX_KEYS)?;
    list_of_ids(alloc, u32::from(count), rest)
}

// Whether a key may follow an earlier one.
fn follows(earlier: &Key, key: &Key) -> bool
    ensures { result ≡ (key_below earlier.now key.now && not (id_eq (id_of earlier.now) (id_of key.now))) }
{
    earlier.is_below(key) && earlier.id() != key.id()
}

pub fn may_follow(before: &[Key], key: &Key) -> bool
    ensures { result ≡ fields.may_follow (λ k. k) before.now key.now }
{
    before.iter().all(|earlier| follows(earlier, key))
}

pub fn may_follow_entries(before: &[Entry], key: &Key) -> bool
    ensures { result ≡ fields.may_follow (λ e. e.key) before.now key.now }
{
    before.iter().all(|earlier| follows(&earlier.key, key))
}

#[tactic(auto, unfolding(crate::specs::Codec::limited_at))]
fn next_key_at<'a>(before: &[Key], bytes: Rest<'a>) -> Result<(Key, Rest<'a>), Fault>
    ensures { Gives (λ x. x) result ((next_key before.now).get bytes.entry) }
{
    let left = bytes.len();
    let (key, rest) = key_at(bytes)?;
    if !may_follow(before, &key) {
        return Err(Fault::Bad(left));
    }
    Ok((key, rest))
}

// Whether an entry with this key may come next: the last entry has the greatest key so far.
fn may_be_next(before: &[Entry], ids: &IndexSet<Id>, key: &Key) -> bool
    requires { AreNoted before.now ids.now.keys }
    ensures { result ≡ fields.may_follow (λ e. e.key) before.now key.now }
{
    is_above(before.last().map(|entry| entry.key), key) && !ids.contains(&key.id())
}

#[tactic(auto, unfolding(crate::specs::Codec::limited_at))]
fn next_entry_key_at<'a>(
    before: &[Entry],
    ids: &IndexSet<Id>,
    bytes: Rest<'a>,
) -> Result<(Key, Rest<'a>), Fault>
    requires { AreNoted before.now ids.now.keys }
    ensures value { Gives (λ x. x) result ((next_key_by (λ e. e.key) before.now).get bytes.entry) }
    ensures follows { IfOk result (λ x. IsTrue (fields.may_follow (λ e. e.key) before.now x.0)) }
{
    let left = bytes.len();
    let (key, rest) = key_at(bytes)?;
    if !may_be_next(before, ids, &key) {
        return Err(Fault::Bad(left));
    }
    Ok((key, rest))
}

fn next_entry_at<'a>(
    before: &[Entry],
    ids: &IndexSet<Id>,
    bytes: Rest<'a>,
) -> Result<(Entry, Rest<'a>), Fault>
    requires { AreNoted before.now ids.now.keys }
    ensures value { Gives (λ x. x) result ((next_entry before.now).get bytes.entry) }
    ensures follows { IfOk result (λ x. IsTrue (fields.may_follow (λ e. e.key) before.now x.0.key)) }
{
    let (key, rest) = next_entry_key_at(before, ids, bytes)?;
    let (command, rest) = command_at(rest)?;
    Ok((Entry { key, command }, rest))
}

fn list_of_keys(alloc: Global, count: u32, bytes: Rest<'_>) -> Result<(KeyList, Rest<'_>), Fault>
    ensures { Gives (λ x. x) result (items_at next_key [] count bytes.entry) }
{
    let mut keys = KeyList::with_capacity(alloc, room_for(count, KEY_SIZE, bytes.len()))?;
    let mut rest = bytes;
    for _ in 0..count {
        let (key, after) = next_key_at(keys.as_slice(), rest)?;
        keys.push(key)?;
        rest = after;
    }
    Ok((keys, rest))
}

// The keys where all come in turn, as nearly always: that shows without looking back that no id comes twice.
fn keys_in_turn(
    alloc: Global,
    count: u32,
    bytes: Rest<'_>,
) -> Result<Option<(KeyList, Rest<'_>)>, Fault>
    ensures read { IfOk result (λ read. IfSome read (λ x. items_at next_key [] count bytes.entry ≡ Ok x)) }
    ensures fault { IfErr result (λ fault. Fails fault (items_at next_key [] count bytes.entry)) }
{
    let mut keys = KeyList::with_capacity(alloc, room_for(count, KEY_SIZE, bytes.len()))?;
    let mut ids = RisingIds::new();
    let mut rest = bytes;
    for _ in 0..count {
        let (key, after) = key_at(rest)?;
        if !ids.comes_in_turn(&key) {
            return Ok(None);
        }
        ids.note(key);
        keys.push(key)?;
        rest = after;
    }
    Ok(Some((keys, rest)))
}

pub fn keys_at(alloc: Global, bytes: Rest<'_>) -> Result<(KeyList, Rest<'_>), Fault>
    ensures { Gives (λ x. x) result (keys.get bytes.entry) }
{
    let (count, rest) = u8_within(bytes, 0, MAX_KEYS)?;
    let count = u32::from(count);
    // One key has none before it.
    if count > 1 {
        if let Some(read) = keys_in_turn(alloc, count, rest.again())? {
            return Ok(read);
        }
    }
    list_of_keys(alloc, count, rest)
}

fn list_of_entries(
    alloc: Global,
    count: u32,
    bytes: Rest<'_>,
) -> Result<(EntryList, Rest<'_>), Fault>
    ensures { Gives (λ x. x) result (items_at next_entry [] count bytes.entry) }
{
    let room = room_for(count, ENTRY_SIZE, bytes.len());
    let mut entries = EntryList::with_capacity(alloc, room)?;
    let mut ids = IndexSet::with_capacity(alloc, room as usize)?;
    let mut rest = bytes;
    for _ in 0..count {
        let (entry, after) = next_entry_at(entries.as_slice(), &ids, rest)?;
        ids.insert(entry.key.id())?;
        entries.push(entry)?;
        rest = after;
    }
    Ok((entries, rest))
}

// The entries where all come in turn, as in nearly every log: that shows without a set that no id comes twice.
fn entries_in_turn(
    alloc: Global,
    count: u32,
    bytes: Rest<'_>,
) -> Result<Option<(EntryList, Rest<'_>)>, Fault>
    ensures read { IfOk result (λ read. IfSome read (λ x. items_at next_entry [] count bytes.entry ≡ Ok x)) }
    ensures fault { IfErr result (λ fault. Fails fault (items_at next_entry [] count bytes.entry)) }
{
    let room = room_for(count, ENTRY_SIZE, bytes.len());
    let mut entries = EntryList::with_capacity(alloc, room)?;
    let mut ids = RisingIds::new();
    let mut rest = bytes;
    for _ in 0..count {
        let (key, after) = key_at(rest)?;
        if !ids.comes_in_turn(&key) {
            return Ok(None);
        }
        ids.note(key);
        let (command, after) = command_at(after)?;
        entries.push(Entry { key, command })?;
        rest = after;
    }
    Ok(Some((entries, rest)))
}

/// From `least` to `most` entries.
pub fn entries_at(
    alloc: Global,
    bytes: Rest<'_>,
    least: u32,
    most: u32,
) -> Result<(EntryList, Rest<'_>), Fault>
    ensures { Gives (λ x. x) result ((entries least most).get bytes.entry) }
{
    let (count, rest) = u32_within(bytes, least, most)?;
    match entries_in_turn(alloc, count, rest.again())? {
        Some(read) => Ok(read),
        None => list_of_entries(alloc, count, rest),
    }
}
