//! Which numbers are kinds, and which are addresses.

ghost use Rattle.std.specs.Prelude.{◌↔◌, IsTrue};
ghost use Rattle.nz_frame.specs.Address.{IsKind, IsAddress};

/// The kinds of messages have the numbers 1 to this.
pub const KIND_COUNT: u8 = 18;

/// Whether a kind of message has this number.
pub fn is_kind(kind: u8) -> bool
    ensures { IsTrue result ↔ IsKind kind }
{
    matches!(kind, 1..=KIND_COUNT)
}

/// Whether the address belongs to somebody.
pub fn is_address(address: u16) -> bool
    ensures { IsTrue result ↔ IsAddress address }
{
    matches!(address, 0..=8 | 16..=23 | 64..=127)
}
