//! Why a field could not be read.

ghost use Rattle.std.specs.Prelude.{◌≡◌, length};
ghost use Rattle.nz_msg.specs.declared.fault.Fault.TheVariants.{NoMemory, Bad};

use super::rest::Rest;
use std::alloc::{AllocError, AllocFailed};

#[derive(Debug, Drop)]
pub enum Fault {
    NoMemory,
    /// A field runs past the end or is out of its range, or bytes follow the last one. This many bytes are left from
    /// its place on.
    Bad(usize),
}

impl Fault {
    /// The fault at the first byte that is left.
    pub fn at(rest: Rest<'_>) -> Fault
        ensures { result ≡ Bad (length rest.entry) }
    {
        Fault::Bad(rest.len())
    }
}

impl From<AllocError> for Fault {
    ghost from_gives = { λ _ fault. fault ≡ NoMemory };

    fn from(_: AllocError) -> Fault {
        Fault::NoMemory
    }
}

impl From<nz_base::NoMemory> for Fault {
    ghost from_gives = { λ _ fault. fault ≡ NoMemory };

    fn from(_: nz_base::NoMemory) -> Fault {
        Fault::NoMemory
    }
}

impl From<nz_store::NoMemory> for Fault {
    ghost from_gives = { λ _ fault. fault ≡ NoMemory };

    fn from(_: nz_store::NoMemory) -> Fault {
        Fault::NoMemory
    }
}

impl<T: Drop> From<AllocFailed<T>> for Fault {
    ghost from_gives = { λ _ fault. fault ≡ NoMemory };

    fn from(_: AllocFailed<T>) -> Fault {
        Fault::NoMemory
    }
}
