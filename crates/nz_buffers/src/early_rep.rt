//! What an early buffer is to its callers.

ghost use Rattle.std.specs.Prelude.{◌≡◌, ◌++◌, ◌↔◌, List, IsTrue, IsFalse, IsSome, IsOk, IfOk, OnOk, OnErr, not};
ghost use Rattle.std.specs.Option.{option_copied, option_to_list};
ghost use Rattle.nz_base.specs.declared.key.Entry.{Entry as EntryModel};
ghost use Rattle.nz_base.specs.Key.{key_below, id_of};
ghost use Rattle.nz_base.specs.Log.{keys_of, has_id};
ghost use Rattle.nz_buffers.specs.Buffers.{find_id, without, first_key, is_due, released, first_if, is_past};
ghost use Rattle.nz_buffers.specs.Offers.{offer_answer, after_offer};

use super::early::Offer;
use nz_base::{Entry, Id, Key, NoMemory};

/// The entries that wait for their deadlines, in some representation. A clause sees the list of
/// them in the order of their keys.
pub trait EarlyRep {
    ghost early: { Self → List EntryModel };

    /// The least key.
    fn first(&self) -> Option<Key>
        ensures { result ≡ first_key (early self.now) };

    /// Takes the entry in if its key is above `last`, the last key of the log.
    fn offer(&mut self, entry: Entry, last: Option<Key>) -> Result<Offer, NoMemory>
        requires fresh { IsFalse (has_id (keys_of (early self.old)) (id_of entry.key)) }
        ensures answer { IfOk result (λ offer. offer ≡ offer_answer last entry) }
        ensures late_takes_no_memory { IsFalse (is_past last entry.key) → IsOk result }
        ensures ok { OnOk result ((early self.new) ≡ after_offer (early self.old) last entry) }
        ensures err { OnErr result ((early self.new) ≡ (early self.old)) };

    /// Takes the entry of least key out if its deadline is at most the clock.
    fn take_due(&mut self, clock: u64) -> Option<Entry>
        ensures value { result ≡ first_if (is_due clock) (early self.old) }
        ensures rest { (early self.old) ≡ option_to_list result ++ (early self.new) }
        ensures released { released (early self.old) clock ≡ option_to_list result ++ released (early self.new) clock };

    /// Takes the entry of least key out if that key is not above `last`.
    fn take_below(&mut self, last: Key) -> Option<Entry>
        ensures value { result ≡ first_if (λ e. not (key_below last e.key)) (early self.old) }
        ensures rest { (early self.old) ≡ option_to_list result ++ (early self.new) };

    fn remove(&mut self, id: Id) -> Option<Entry>
        ensures value { result ≡ find_id (early self.old) id }
        ensures held { IsSome result ↔ IsTrue (has_id (keys_of (early self.old)) id) }
        ensures rest { (early self.new) ≡ without (early self.old) id };

    fn find(&self, id: Id) -> Option<&Entry>
        ensures value { option_copied result ≡ find_id (early self.now) id }
        ensures held { IsSome result ↔ IsTrue (has_id (keys_of (early self.now)) id) };
}
