//! Runs of bytes.

ghost use Rattle.std.specs.Prelude.{◌≡◌, ◌↔◌, IfOk, IsTrue};
ghost use Rattle.std.specs.Str.{bytes_eq};
ghost use Rattle.std.specs.Cmp.{partial_equiv_from_equiv};
ghost use Rattle.std.specs.Cmp.Lexicographic.{nat_list_eq_equiv};

use super::memory::{NoMemory, TryCopy};
use bytes::Bytes;
use std::alloc::Global;
use std::marker::Model;

/// Some bytes. A clause sees the list of them.
#[derive(Debug, Drop)]
pub struct Blob {
    storage: Storage,
}

// What holds the bytes: a vector of the blob's own, or a part of bytes that others hold too.
#[derive(Debug, Drop)]
enum Storage {
    Own(Vec<u8>),
    Share(Bytes),
}

impl Model for Blob {
    ghost use Rattle.std.specs.Prelude.{ℕ, List};
    ghost use Rattle.nz_base.specs.Blob.{bytes_in};

    ghost Value = { List ℕ };

    ghost view = { λ b. bytes_in b.storage };
}

impl Blob {
    pub fn from_slice(alloc: Global, bytes: &[u8]) -> Result<Blob, NoMemory>
        ensures { IfOk result (λ blob. blob ≡ bytes.now) }
    {
        Ok(Blob::from_vec(Vec::from_slice(alloc, bytes)?))
    }

    /// Takes the bytes over without copying them.
    pub fn from_vec(bytes: Vec<u8>) -> Blob
        ensures { result ≡ bytes.items }
    {
        Blob {
            storage: Storage::Own(bytes),
        }
    }

    /// A share of the bytes, which are not copied. Neither are those of its copies.
    pub fn from_bytes(bytes: Bytes) -> Blob
        ensures { result ≡ bytes }
    {
        Blob {
            storage: Storage::Share(bytes),
        }
    }

    /// The bytes as a vector. Those of a share are copied.
    pub fn into_vec(self, alloc: Global) -> Result<Vec<u8>, NoMemory>
        ensures { IfOk result (λ bytes. bytes.items ≡ self) }
    {
        match self.storage {
            Storage::Own(bytes) => Ok(bytes),
            Storage::Share(bytes) => Ok(Vec::from_slice(alloc, bytes.as_slice())?),
        }
    }

    pub fn as_slice(&self) -> &[u8]
        ensures { result.now ≡ self.now }
    {
        match &self.storage {
            Storage::Own(bytes) => bytes,
            Storage::Share(bytes) => bytes.as_slice(),
        }
    }
}

impl TryCopy for Blob {
    fn copy(&self, alloc: Global) -> Result<Blob, NoMemory> {
        match &self.storage {
            Storage::Own(bytes) => Blob::from_slice(alloc, bytes),
            Storage::Share(bytes) => Ok(Blob::from_bytes(bytes.clone()?)),
        }
    }
}

impl PartialEq for Blob {
    ghost eq = { bytes_eq };

    ghost laws = { partial_equiv_from_equiv nat_list_eq_equiv };

    fn eq(&self, other: &Blob) -> bool
        ensures value { result ≡ bytes_eq self.now other.now }
        ensures same { IsTrue result ↔ (self.now ≡ other.now) }
    {
        self.as_slice() == other.as_slice()
    }
}

impl Eq for Blob {
    ghost laws = { nat_list_eq_equiv };
}
