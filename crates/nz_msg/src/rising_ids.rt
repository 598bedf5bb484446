//! Keys in turn: each is above the one before it, and the numbers of each client rise.

ghost use Rattle.std.specs.Prelude.{◌≡◌, IsTrue};
ghost use Rattle.nz_msg.specs.RisingIds as ids;

use nz_base::{Key, MAX_CLIENTS};

/// What the keys so far leave for the next one.
#[derive(Debug, Drop)]
pub struct RisingIds {
    last: Option<Key>,
    // The last number of each client, 0 before its first.
    numbers: [u32; MAX_CLIENTS as usize],
}

/// Whether a key is above the last one of others, or there are none.
pub fn is_above(last: Option<Key>, key: &Key) -> bool
    ensures { result ≡ ids.is_above last key.now }
{
    match last {
        Some(last) => last.is_below(key),
        None => true,
    }
}

impl RisingIds {
    /// Before the first key.
    pub fn new() -> RisingIds
        ensures { result ≡ ids.none_yet }
    {
        RisingIds {
            last: None,
            numbers: [0; MAX_CLIENTS as usize],
        }
    }

    /// Whether the key comes in turn. One that does has an id that no key before it has.
    pub fn comes_in_turn(&self, key: &Key) -> bool
        ensures { result ≡ ids.comes_in_turn self.now key.now }
    {
        match self.numbers.get(key.client as usize) {
            Some(number) => *number < key.num && is_above(self.last, key),
            None => false,
        }
    }

    /// Notes a key that comes in turn as the last one.
    pub fn note(&mut self, key: Key)
        requires { IsTrue (ids.comes_in_turn self.old key) }
        ensures { self.new ≡ ids.after_key self.old key }
    {
        self.last = Some(key);
        self.numbers[key.client as usize] = key.num;
    }
}
