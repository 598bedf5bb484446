//! Searching a list of entries.

ghost use Rattle.std.specs.Prelude.{IfSome, IfNone, IsFalse};
ghost use Rattle.nz_base.specs.Log.{keys_of, has_id, IsFirstPlace};

use super::key::{Entry, Id};

/// The place of the first entry with the id, counted from 0.
pub fn first_place(entries: &[Entry], id: Id) -> Option<usize>
    ensures found { IfSome result (λ place. IsFirstPlace entries.now id place) }
    ensures none { IfNone result (IsFalse (has_id (keys_of entries.now) id)) }
{
    for (place, entry) in entries.iter().enumerate() {
        if id == entry.key.id() {
            return Some(place);
        }
    }
    None
}
