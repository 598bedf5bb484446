//! What a sink of bytes promises.

ghost use Rattle.std.specs.Prelude.{◌≡◌, ◌<◌, ◌≤◌, ℕ, List, Option, length, take, IfOk, OnErr};
ghost use Rattle.nz_edge.specs.Faults.{Rose};
ghost use Rattle.nz_edge.specs.Exposed.{Gains};

use super::source::Failed;

/// Where output goes.
pub trait Sink {
    /// The bytes taken so far, where the sink exposes them.
    ghost taken: { Self → Option (List ℕ) };

    /// How many faults the sink has counted.
    ghost faults: { Self → ℕ };

    /// Takes bytes from the beginning of `piece`, and says how many.
    fn write(&mut self, piece: &[u8]) -> Result<usize, Failed>
        requires { 0 < length piece.now }
        ensures least { IfOk result (λ count. 1 ≤ count) }
        ensures most { IfOk result (λ count. count ≤ length piece.now) }
        ensures took { IfOk result (λ count. Gains (taken self.old) (taken self.new) (take count piece.now)) }
        ensures failed { OnErr result (Rose (faults self.old) (faults self.new)) }
        ensures kept { OnErr result (taken self.new ≡ taken self.old) }
        ensures counts { faults self.old ≤ faults self.new };

    /// Passes on what was taken.
    fn flush(&mut self) -> Result<(), Failed>
        ensures kept { taken self.new ≡ taken self.old }
        ensures failed { OnErr result (Rose (faults self.old) (faults self.new)) }
        ensures counts { faults self.old ≤ faults self.new };
}
