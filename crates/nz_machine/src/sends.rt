//! The parcels of a step.

ghost use Rattle.std.specs.Prelude.{◌≡◌, ◌↔◌, ◌∷◌, ◌++◌, [], length, IsTrue, IfOk, OnOk};
ghost use Rattle.nz_machine.specs.rules.Sends.{parcels_of};
ghost use Rattle.nz_machine.specs.declared.sends.Few.TheVariants as few;

use super::event::SharedParcel;
use nz_base::{List, NoMemory};
use std::alloc::Global;
use std::marker::Model;
use std::{mem, slice};

#[derive(Drop)]
enum Few {
    None,
    One(SharedParcel),
    Many(List<SharedParcel>),
}

/// The parcels of a step, in the order in which they were sent. Contracts see the list of them. Only two or more take memory
/// beside their own.
#[derive(Drop)]
pub struct Sends {
    parcels: Few,
}

impl Model for Sends {
    ghost use Rattle.std.specs.Prelude.{List as Listed};
    ghost use Rattle.nz_machine.specs.declared.event.Parcel.{Parcel as ParcelModel};
    ghost use Rattle.nz_machine.specs.rules.Sends.{parcels_of};

    ghost Value = { Listed ParcelModel };

    ghost view = { λ s. parcels_of s.parcels };
}

/// Both parcels, with no room for a third.
fn pair(
    alloc: Global,
    first: SharedParcel,
    second: SharedParcel,
) -> Result<List<SharedParcel>, NoMemory>
    ensures { IfOk result (λ list. list ≡ first ∷ second ∷ []) }
{
    let mut list = List::with_capacity(alloc, 2)?;
    list.push(first)?;
    list.push(second)?;
    Ok(list)
}

impl Sends {
    pub fn new() -> Sends
        ensures { result ≡ [] }
    {
        Sends { parcels: Few::None }
    }

    pub fn len(&self) -> u32
        ensures { result ≡ length self.now }
    {
        match &self.parcels {
            Few::None => 0,
            Few::One(_) => 1,
            Few::Many(list) => list.len(),
        }
    }

    pub fn is_empty(&self) -> bool
        ensures { IsTrue result ↔ (self.now ≡ []) }
    {
        match &self.parcels {
            Few::None => true,
            Few::One(_) => false,
            Few::Many(list) => list.is_empty(),
        }
    }

    pub fn as_slice(&self) -> &[SharedParcel]
        ensures { result.now ≡ self.now }
    {
        match &self.parcels {
            Few::None => &[],
            Few::One(parcel) => slice::from_ref(parcel),
            Few::Many(list) => list.as_slice(),
        }
    }

    /// Puts the parcel last.
    pub fn push(&mut self, alloc: Global, parcel: SharedParcel) -> Result<(), NoMemory>
        ensures { OnOk result (self.new ≡ self.old ++ parcel ∷ []) }
    {
        self.parcels = match mem::replace(&mut self.parcels, Few::None) {
            Few::None => Few::One(parcel),
            Few::One(first) => Few::Many(pair(alloc, first, parcel)?),
            Few::Many(mut list) => {
                list.push(parcel)?;
                Few::Many(list)
            }
        };
        Ok(())
    }
}
