//! Laws of the buffers, each the contract of a function with nothing to do.
ghost use Rattle.std.specs.Prelude.{◌≡◌, ℕ, List, ◌++◌, take_while};
ghost use Rattle.nz_base.specs.declared.key.Entry.{Entry};
ghost use Rattle.nz_base.specs.Log.{keys_of, AreRising};
ghost use Rattle.nz_buffers.specs.Buffers.{is_due, released, held_back};

/// The released entries are those that come before the first one that is not due. So taking due
/// entries one after another gives them, and leaves those held back.
pub fn due_entries_come_first()
    ensures in_turn { (early : List Entry) (clock : ℕ) → AreRising (keys_of early)
        → take_while (is_due clock) early ≡ released early clock }
    ensures left { (early : List Entry) (clock : ℕ) → AreRising (keys_of early)
        → early ≡ released early clock ++ held_back early clock }
{}
