//! The keys that came to a list.

ghost use Rattle.std.specs.Prelude.{◌≡◌, ◌∷◌, ◌++◌, [], ◌<◌, get_or, length, is_some, IsFalse, IfOk, IfSome, OnOk, if◌then◌else◌};
ghost use Rattle.std.specs.List.{flat_map};
ghost use Rattle.nz_base.specs.declared.key.Key.{Key as KeyModel};
ghost use Rattle.nz_base.specs.Key.{key_below};
ghost use Rattle.nz_base.specs.Log.{has_key, AreRising};
ghost use Rattle.nz_story.specs.States.{came, came_word, came_text};

use super::words::put_key_word;
use nz_base::{Key, NoMemory};
use nz_script::put;
use std::alloc::Global;

/// The keys from the first one on that is not below this key.
fn from_key<'a>(keys: &'a [Key], key: &Key) -> &'a [Key]
    ensures rising { AreRising keys.now → AreRising result.now }
    ensures others { (k : KeyModel) → IsFalse (key_below k key.now) → has_key keys.now k ≡ has_key result.now k }
    ensures first { (d : KeyModel) → 0 < length result.now → IsFalse (key_below (get_or result.now 0 d) key.now) }
{
    for place in 0..keys.len() {
        if !keys[place].is_below(key) {
            return &keys[place..];
        }
    }
    &keys[keys.len()..]
}

/// Whether the key is among these, of which none is below it.
fn is_first(keys: &[Key], key: &Key) -> bool
    requires rising { AreRising keys.now }
    requires first { (d : KeyModel) → 0 < length keys.now → IsFalse (key_below (get_or keys.now 0 d) key.now) }
    ensures { result ≡ has_key keys.now key.now }
{
    match keys {
        [] => false,
        [first, ..] => key == first,
    }
}

/// Keeps the key, unless it was there before.
fn keep(keys: &mut Vec<Key>, key: Key, was_there: bool) -> Result<(), NoMemory>
    ensures { OnOk result (keys.new.items ≡ keys.old.items ++ (if was_there then [] else key ∷ [])) }
{
    if was_there {
        return Ok(());
    }
    keys.push(key)?;
    Ok(())
}

/// The keys that came, where both lists rise.
pub fn came_in_order(alloc: Global, before: &[Key], after: &[Key]) -> Result<Vec<Key>, NoMemory>
    requires before { AreRising before.now }
    requires after { AreRising after.now }
    ensures { IfOk result (λ keys. keys.items ≡ came before.now after.now) }
{
    let mut keys = Vec::new(alloc);
    let mut rest = before;
    for key in after {
        rest = from_key(rest, key);
        let was_there = is_first(rest, key);
        keep(&mut keys, *key, was_there)?;
    }
    Ok(keys)
}

/// Where the list has the key.
fn place_of(keys: &[Key], key: &Key) -> Option<usize>
    ensures is_there { is_some result ≡ has_key keys.now key.now }
    ensures within { IfSome result (λ place. place < length keys.now) }
{
    for place in 0..keys.len() {
        if *key == keys[place] {
            return Some(place);
        }
    }
    None
}

/// The same. It is looked for at this place first.
fn place_near(keys: &[Key], place: usize, key: &Key) -> Option<usize>
    ensures is_there { is_some result ≡ has_key keys.now key.now }
    ensures within { IfSome result (λ place. place < length keys.now) }
{
    if place < keys.len() && *key == keys[place] {
        return Some(place);
    }
    place_of(keys, key)
}

/// The keys that came. It takes least time where both lists have them in the same order.
pub fn came_of(alloc: Global, before: &[Key], after: &[Key]) -> Result<Vec<Key>, NoMemory>
    ensures { IfOk result (λ keys. keys.items ≡ came before.now after.now) }
{
    let mut keys = Vec::new(alloc);
    let mut next = 0;
    for key in after {
        let found = place_near(before, next, key);
        keep(&mut keys, *key, found.is_some())?;
        if let Some(place) = found {
            next = place + 1;
        }
    }
    Ok(keys)
}

fn put_came_word(out: &mut Vec<u8>, key: &Key) -> Result<(), NoMemory>
    ensures { OnOk result (out.new.items ≡ out.old.items ++ came_word key.now) }
{
    put(out, b" +")?;
    put_key_word(out, key)
}

fn put_each(out: &mut Vec<u8>, keys: &[Key]) -> Result<(), NoMemory>
    ensures { OnOk result (out.new.items ≡ out.old.items ++ flat_map came_word keys.now) }
{
    for key in keys {
        put_came_word(out, key)?;
    }
    Ok(())
}

/// Writes the list's name and the keys that came to it, if any did.
pub fn put_came(out: &mut Vec<u8>, name: &[u8], keys: &[Key]) -> Result<(), NoMemory>
    ensures { OnOk result (out.new.items ≡ out.old.items ++ came_text name.now keys.now) }
{
    if keys.is_empty() {
        return Ok(());
    }
    put(out, name)?;
    put_each(out, keys)
}
