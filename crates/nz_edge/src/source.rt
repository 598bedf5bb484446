//! What a source of bytes promises.

ghost use Rattle.std.specs.Prelude.{◌≡◌, ◌<◌, ◌≤◌, ℕ, List, [], Option, length, take, IfOk, IfSome, OnErr};
ghost use Rattle.nz_edge.specs.Faults.{Rose};
ghost use Rattle.nz_edge.specs.Exposed.{Loses};

/// A read, a write or a flush failed. The end that answered it has counted a fault.
#[derive(Clone, Copy, Debug, PartialEq, Eq)]
pub struct Failed;

/// Where input comes from.
pub trait Source {
    /// The bytes that are left to give, where the source exposes them.
    ghost left: { Self → Option (List ℕ) };

    /// How many faults the source has counted.
    ghost faults: { Self → ℕ };

    /// Gives the next bytes into the beginning of `into`, and how many they are. None is the end of the input.
    fn read(&mut self, into: &mut [u8]) -> Result<usize, Failed>
        requires { 0 < length into.old }
        ensures within { IfOk result (λ count. count ≤ length into.new) }
        ensures given { IfOk result (λ count. Loses (left self.old) (left self.new) (take count into.new)) }
        ensures end { IfOk result (λ count. count ≡ 0 → IfSome (left self.old) (λ bytes. bytes ≡ [])) }
        ensures failed { OnErr result (Rose (faults self.old) (faults self.new)) }
        ensures kept { OnErr result (left self.new ≡ left self.old) }
        ensures counts { faults self.old ≤ faults self.new };
}
