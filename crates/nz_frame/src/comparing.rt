//! Frames as keys of a table: they are equal where their bytes are.

ghost use Rattle.std.specs.Prelude.{◌≡◌, ◌++◌, take, drop, nat_eq};
ghost use Rattle.std.specs.Hash as fed;
ghost use Rattle.std.specs.Cmp.Lexicographic.{pointwise, nat_list_eq_equiv, same_text};
ghost use Rattle.std.specs.Cmp.{partial_equiv_from_equiv};
ghost use Rattle.std.proofs.Common.{sym, ap};

use super::frame::Frame;
use std::hash::{Hash, Hasher};

impl PartialEq for Frame {
    ghost eq = { pointwise nat_eq };

    ghost laws = { partial_equiv_from_equiv nat_list_eq_equiv };

    fn eq(&self, other: &Frame) -> bool {
        self.header() == other.header() && self.body() == other.body()
    }
}

impl Eq for Frame {
    ghost laws = { nat_list_eq_equiv };
}

impl Hash for Frame {
    ghost hash_input = { λ bytes. fed.slice fed.u8 (take 10 bytes) ++ fed.slice fed.u8 (drop 10 bytes) };

    ghost respects_eq = { λ x y same. ap (λ bytes. fed.slice fed.u8 (take 10 bytes) ++ fed.slice fed.u8 (drop 10 bytes)) (same_text x y (sym same)) };

    fn hash<H: Hasher>(&self, state: &mut H) {
        self.header().hash(state);
        self.body().hash(state);
    }
}
