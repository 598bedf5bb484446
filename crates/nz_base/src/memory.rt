//! Want of memory, and copies that may meet it.

ghost use Rattle.std.specs.Prelude.{◌≡◌, IfOk};

use super::actor::Actor;
use std::alloc::{AllocError, AllocFailed, Global};

/// Memory was not found, or a list would have passed 2^32 - 1 items.
#[derive(Clone, Copy, Debug, PartialEq, Eq)]
pub struct NoMemory;

impl From<AllocError> for NoMemory {
    fn from(_: AllocError) -> NoMemory {
        NoMemory
    }
}

impl<T: Drop> From<AllocFailed<T>> for NoMemory {
    fn from(_: AllocFailed<T>) -> NoMemory {
        NoMemory
    }
}

/// A value that is copied whole, where there is memory for it.
pub trait TryCopy {
    fn copy(&self, alloc: Global) -> Result<Self, NoMemory>
        ensures { IfOk result (λ copy. copy ≡ self.now) };
}

impl TryCopy for u32 {
    fn copy(&self, _alloc: Global) -> Result<u32, NoMemory> {
        Ok(*self)
    }
}

impl TryCopy for Actor {
    fn copy(&self, _alloc: Global) -> Result<Actor, NoMemory> {
        Ok(*self)
    }
}
