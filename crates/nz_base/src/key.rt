//! Ids, keys and entries, and the order of keys.

ghost use Rattle.std.specs.Prelude.{◌≡◌, ◌↔◌, IsTrue};

use super::blob::Blob;
use super::list::List;
use super::memory::{NoMemory, TryCopy};
use std::alloc::Global;
use std::cmp::Ordering;

/// A request of a client, by the client's number and the number that the client gave it.
#[derive(Clone, Copy, Debug, PartialEq, Eq, Hash)]
pub struct Id {
    pub client: u32,
    pub num: u32,
}

/// The place of a request among all: by deadline, then by client, then by number.
/// The deadline is in clock units.
#[derive(Clone, Copy, Debug, PartialEq, Eq, PartialOrd, Ord, Hash)]
pub struct Key {
    pub deadline: u64,
    pub client: u32,
    pub num: u32,
}

/// A request as logs and buffers hold it.
#[derive(Debug, Drop, PartialEq, Eq)]
pub struct Entry {
    pub key: Key,
    pub command: Blob,
}

pub type EntryList = List<Entry>;

pub type KeyList = List<Key>;

pub type IdList = List<Id>;

impl Key {
    ghost use Rattle.std.specs.declared.cmp.Ordering.TheVariants.{Less, Equal, Greater};
    ghost use Rattle.nz_base.specs.Key.{KeyBelow, key_cmp, key_below, id_of};

    pub fn cmp(&self, other: &Key) -> Ordering
        ensures value { result ≡ key_cmp self.now other.now }
        ensures below { (result ≡ Less) ↔ KeyBelow self.now other.now }
        ensures same { (result ≡ Equal) ↔ (self.now ≡ other.now) }
        ensures above { (result ≡ Greater) ↔ KeyBelow other.now self.now }
    {
        Ord::cmp(self, other)
    }

    /// Whether this key comes before the other.
    pub fn is_below(&self, other: &Key) -> bool
        ensures value { result ≡ key_below self.now other.now }
        ensures below { IsTrue result ↔ KeyBelow self.now other.now }
    {
        self < other
    }

    pub fn id(&self) -> Id
        ensures { result ≡ id_of self.now }
    {
        Id {
            client: self.client,
            num: self.num,
        }
    }
}

impl TryCopy for Id {
    fn copy(&self, _alloc: Global) -> Result<Id, NoMemory> {
        Ok(*self)
    }
}

impl TryCopy for Key {
    fn copy(&self, _alloc: Global) -> Result<Key, NoMemory> {
        Ok(*self)
    }
}

impl TryCopy for Entry {
    fn copy(&self, alloc: Global) -> Result<Entry, NoMemory> {
        Ok(Entry {
            key: self.key,
            command: self.command.copy(alloc)?,
        })
    }
}
