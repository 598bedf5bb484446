//! Logs that both forms of a log make of a list of keys.

use crate::hex::hex_of;
use nz_base::{Blob, Entry, Key, List, NoMemory};
use nz_log::{HashedLog, ListLog, LogAnswer, LogCall, LogCallList, LogRep, run_calls};
use std::alloc::Global;

fn number_in(word: Option<&str>) -> u32 {
    match word {
        Some(word) => word.parse().unwrap_or(0),
        None => 0,
    }
}

/// The key of a word `DEADLINE/CLIENT/NUM`.
fn key_in(word: &str) -> Key {
    let mut parts = word.split('/');
    Key {
        deadline: number_in(parts.next()).into(),
        client: number_in(parts.next()),
        num: number_in(parts.next()),
    }
}

/// Appends each key, and then asks for the digest at its place.
fn calls_of(alloc: Global, keys: &str) -> Result<LogCallList, NoMemory> {
    let mut calls = List::new(alloc);
    for (place, word) in (0..).zip(keys.split(' ')) {
        let key = key_in(word);
        let command = Blob::from_slice(alloc, b"get a")?;
        calls.push(LogCall::Append(Entry { key, command }))?;
        calls.push(LogCall::DigestAt(place))?;
    }
    Ok(calls)
}

fn digests_by<L: LogRep>(alloc: Global, log: &mut L, keys: &str) -> Result<String, NoMemory> {
    let mut text = String::new(alloc);
    for answer in run_calls(log, &calls_of(alloc, keys)?)?.as_slice() {
        if let LogAnswer::Sum(digest) = answer {
            text.push_str(" ")?;
            text.push_str(hex_of(alloc, digest.as_bytes())?.as_str())?;
        }
    }
    Ok(text)
}

/// The digest after each key, by the log with pages and by the plain list.
pub fn digests_of(alloc: Global, keys: &str) -> Result<String, NoMemory> {
    let hashed = digests_by(alloc, &mut HashedLog::new(alloc), keys)?;
    let plain = digests_by(alloc, &mut ListLog::new(alloc), keys)?;
    Ok(format!(in alloc; "pages{hashed} list{plain}")?)
}
