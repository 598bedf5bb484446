//! The item at the beginning of bytes.

ghost use Rattle.std.specs.Prelude.{◌≡◌, ◌≤◌, ◌<◌, ◌+◌, [], length, drop};
ghost use Rattle.std.specs.Option.{option_map};
ghost use Rattle.byteorder.specs.Endian.{big_number};
ghost use Rattle.nz_lane.specs.Reading as words;
ghost use Rattle.nz_lane.specs.Reading.{frame_wanted, request_wanted, wanted_by, frame_or, clock_or, request_or, item_by};
ghost use Rattle.nz_frame.specs.Grammar.{AreBytes};
ghost use Rattle.nz_frame.specs.Refusal.{refusal};
ghost use Rattle.nz_store.specs.Reading.{command_of};

use super::item::{
    ALARM_BYTE, CLOCK_BYTE, CRASH_BYTE, FRAME_BYTE, Item, ItemRefusal, REQUEST_BYTE, RESTART_BYTE,
    Sort,
};
use byteorder::{BigEndian, ByteOrder};
use bytes::Bytes;
use nz_base::{Blob, MAX_CLOCK, MAX_COMMAND};
use nz_frame::{Frame, frame_len};
use nz_store::command_in;

/// No item has more bytes than the longest frame.
pub const MOST_WANTED: usize = 16_777_220;

/// The sort of an item, by its first byte.
fn sort_of(first: u8) -> Option<Sort>
    ensures { result ≡ words.sort_of first }
{
    match first {
        0..=FRAME_BYTE => Some(Sort::Frame),
        CLOCK_BYTE => Some(Sort::Clock),
        ALARM_BYTE => Some(Sort::Alarm),
        CRASH_BYTE => Some(Sort::Crash),
        RESTART_BYTE => Some(Sort::Restart),
        REQUEST_BYTE => Some(Sort::Request),
        _ => None,
    }
}

/// How many bytes a frame has.
fn frame_wanted(bytes: &[u8]) -> usize
    ensures value { result ≡ words.frame_wanted bytes.now }
    ensures most { result ≤ MOST_WANTED }
{
    match frame_len(bytes) {
        Some(len) if 6 <= len && len <= 16_777_216 => 4 + len as usize,
        _ => 4,
    }
}

/// How many bytes a request has.
fn request_wanted(bytes: &[u8]) -> usize
    ensures value { result ≡ words.request_wanted bytes.now }
    ensures most { result ≤ MOST_WANTED }
{
    if bytes.len() < 3 {
        return 3;
    }
    let size = BigEndian::read_u16(&bytes[1..]);
    if size <= MAX_COMMAND {
        3 + usize::from(size)
    } else {
        3
    }
}

/// How many bytes there have to be before the item at the beginning is settled, as far as the bytes say it.
#[tactic(auto, unfolding(crate::specs::Reading::wanted))]
pub fn wanted(bytes: &[u8]) -> usize
    ensures value { result ≡ words.wanted bytes.now }
    ensures most { result ≤ MOST_WANTED }
    ensures bytes { AreBytes bytes.now }
{
    let [first, ..] = bytes else {
        return 1;
    };
    match sort_of(*first) {
        None | Some(Sort::Alarm | Sort::Crash) => 1,
        Some(Sort::Clock | Sort::Restart) => 9,
        Some(Sort::Frame) => frame_wanted(bytes),
        Some(Sort::Request) => request_wanted(bytes),
    }
}

/// The frame that the bytes are.
fn frame_in(own: Bytes) -> Result<Item, ItemRefusal>
    ensures { result ≡ frame_or (refusal own) own }
{
    let frame = Frame::from_bytes(own);
    match frame.parts() {
        Ok(_) => {}
        Err(refusal) => return Err(ItemRefusal::Frame(refusal)),
    }
    Ok(Item::Frame(frame))
}

/// The number of eight bytes after the first one.
fn number_in(own: &[u8]) -> u64
    requires { 9 ≤ length own.now }
    ensures { result ≡ big_number 8 (drop 1 own.now) }
{
    BigEndian::read_u64(&own[1..])
}

/// The clock reading, if it is in its range.
fn clock_item(reading: u64) -> Result<Item, ItemRefusal>
    ensures { result ≡ clock_or reading }
{
    if reading > MAX_CLOCK {
        return Err(ItemRefusal::Clock);
    }
    Ok(Item::Clock(reading))
}

/// The request of the bytes, if these are a command.
fn request_in(own: Bytes) -> Result<Item, ItemRefusal>
    requires { 3 ≤ length own }
    ensures { result ≡ request_or (command_of (drop 3 own)) (drop 3 own) }
{
    let mut command = own;
    command.advance(3);
    if command_in(command.as_slice()).is_none() {
        return Err(ItemRefusal::Command);
    }
    Ok(Item::Request(Blob::from_bytes(command)))
}

/// The item that the bytes are, all of them.
#[tactic(auto, unfolding(crate::specs::Reading::item_of, crate::specs::Reading::wanted))]
pub fn item_of(own: Bytes) -> Result<Item, ItemRefusal>
    requires { words.wanted own ≤ length own }
    ensures { result ≡ words.item_of own }
{
    let bytes = own.as_slice();
    let [first, ..] = bytes else {
        return Err(ItemRefusal::Cut);
    };
    match sort_of(*first) {
        None => Err(ItemRefusal::Kind),
        Some(Sort::Frame) => frame_in(own),
        Some(Sort::Clock) => clock_item(number_in(bytes)),
        Some(Sort::Alarm) => Ok(Item::Alarm),
        Some(Sort::Crash) => Ok(Item::Crash),
        Some(Sort::Restart) => Ok(Item::Restart(number_in(bytes))),
        Some(Sort::Request) => request_in(own),
    }
}
