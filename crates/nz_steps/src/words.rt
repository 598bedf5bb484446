//! Numbers and bytes as words.

use crate::stage::Stop;
use nz_base::Actor;
use std::alloc::Global;

pub fn number_in(word: &str) -> Result<u64, Stop> {
    word.parse().map_err(|_| Stop::Input)
}

/// A number below 256.
pub fn byte_in(word: &str) -> Result<u8, Stop> {
    word.parse().map_err(|_| Stop::Input)
}

/// A number below 2^32.
pub fn count_in(word: &str) -> Result<u32, Stop> {
    word.parse().map_err(|_| Stop::Input)
}

/// The actor of an address in frames.
pub fn actor_in(word: &str) -> Result<Actor, Stop> {
    let address = word.parse().map_err(|_| Stop::Input)?;
    Actor::from_address(address).ok_or(Stop::Input)
}

/// Bytes as two hexadecimal digits each.
pub fn bytes_in(alloc: Global, word: &str) -> Result<Vec<u8>, Stop> {
    hex::decode(alloc, word.as_bytes()).map_err(|_| Stop::Input)
}
