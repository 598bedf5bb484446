//! Laws of items and of streams of them.

ghost use Rattle.std.specs.Prelude.{◌≡◌, ◌≢◌, ℕ, List, ◌++◌, length, drop, Ok, Err};
ghost use Rattle.nz_frame.specs.Grammar.{AreBytes};
ghost use Rattle.nz_lane.specs.declared.item.Item.{Item};
ghost use Rattle.nz_lane.specs.declared.item.ItemRefusal.TheVariants.{Cut};
ghost use Rattle.nz_lane.specs.Items.{spelling, IsValidItem};
ghost use Rattle.nz_lane.specs.Reading.{item_at};
ghost use Rattle.nz_lane.specs.Streams.{IsStream};

/// An item is read back from its bytes, whatever follows them.
pub fn what_is_written_is_read()
    ensures { (item : Item) (rest : List ℕ) → IsValidItem item → item_at (spelling item ++ rest) ≡ Ok item }
{}

/// What is read is an item, and the bytes begin with its own.
pub fn only_items_are_read()
    ensures valid { (bytes : List ℕ) (item : Item) → AreBytes bytes → item_at bytes ≡ Ok item → IsValidItem item }
    ensures spelled { (bytes : List ℕ) (item : Item) → AreBytes bytes → item_at bytes ≡ Ok item
        → bytes ≡ spelling item ++ drop (length (spelling item)) bytes }
{}

/// What is settled by bytes stays so when further bytes come.
pub fn later_bytes_change_nothing()
    ensures { (bytes more : List ℕ) → item_at bytes ≢ Err Cut → item_at (bytes ++ more) ≡ item_at bytes }
{}

/// No item begins another.
pub fn no_item_begins_another()
    ensures same { (a b : Item) (x y : List ℕ) → IsValidItem a → IsValidItem b → spelling a ++ x ≡ spelling b ++ y → a ≡ b }
    ensures rest { (a b : Item) (x y : List ℕ) → IsValidItem a → IsValidItem b → spelling a ++ x ≡ spelling b ++ y → x ≡ y }
{}

/// A stream is one list of items alone, and is bad at one place at most.
pub fn one_reading()
    ensures items { (stream : List ℕ) (items others : List Item) (rest end : List ℕ)
        → IsStream stream items rest → IsStream stream others end → items ≡ others }
    ensures rest { (stream : List ℕ) (items others : List Item) (rest end : List ℕ)
        → IsStream stream items rest → IsStream stream others end → rest ≡ end }
{}
