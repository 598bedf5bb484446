//! Where each request first is in the history.

ghost use Rattle.std.specs.Prelude.{◌≡◌, ◌<◌, ◌^◌, length, IfOk};
ghost use Rattle.indexmap.specs.IndexMap.{get};
ghost use Rattle.nz_base.specs.Key.{id_eq};
ghost use Rattle.nz_check.specs.Noting.{AreFirstPlaces};

use indexmap::IndexMap;
use nz_base::{Id, NoMemory};
use nz_machine::Executed;
use std::alloc::Global;

pub type Places = IndexMap<Id, u32>;

/// The place of the first entry of each request, from 0. The last entry is noted first, so what stays is the first.
pub fn places_of(alloc: Global, history: &[Executed]) -> Result<Places, NoMemory>
    requires { length history.now < 2 ^ 32 }
    ensures { IfOk result (λ places. AreFirstPlaces history.now (get id_eq places)) }
{
    let mut places = IndexMap::new(alloc);
    for place in (0..history.len()).rev() {
        places.insert(history[place].id, place as u32)?;
    }
    Ok(places)
}

/// The place of the first entry of the request.
pub fn place_of(places: &Places, id: Id) -> Option<u32>
    ensures { result ≡ get id_eq places.now id }
{
    places.get(&id).copied()
}
