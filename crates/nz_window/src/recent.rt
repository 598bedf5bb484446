//! The last samples of one replica.
ghost use Rattle.std.specs.Prelude.{◌≡◌, ℕ, ◌<◌, ◌↔◌, length, [], ◌∷◌, ◌++◌, IsSome, IfSome};
ghost use Rattle.nz_window.specs.Samples.{last_32, median};

use std::marker::Model;

/// The samples that are kept.
const KEPT: usize = 32;

/// The last samples of one replica, the newest last.
#[derive(Clone, Copy)]
pub(crate) struct Recent {
    samples: [u32; KEPT],
    count: u8,
}

impl Model for Recent {
    ghost use Rattle.std.specs.Prelude.{List, ℕ, length, take};
    ghost use Rattle.nz_window.specs.Layout.{IsLaidOut, with_zeros, with_zeros-take, length-samples};

    ghost Value = { List ℕ };

    ghost view = { λ r. take r.count r.samples };

    ghost invariant = { λ r. IsLaidOut r.samples r.count };

    ghost inverse = { λ samples. record { samples = with_zeros samples; count = length samples } };

    ghost inverse_ok = { λ r laid_out. λ i. record {
      samples = with_zeros-take r.samples r.count laid_out i;
      count = length-samples r.samples r.count laid_out i;
    } };
}

impl Recent {
    pub(crate) fn new() -> Recent
        ensures { result ≡ [] }
    {
        Recent {
            samples: [0; KEPT],
            count: 0,
        }
    }

    // Adds the newest sample, and drops the oldest of more than are kept.
    pub(crate) fn push(&mut self, delay: u32)
        ensures { self.new ≡ last_32 (self.old ++ delay ∷ []) }
    {
        if (self.count as usize) < KEPT {
            self.samples[self.count as usize] = delay;
            self.count += 1;
        } else {
            self.samples.rotate_left(1);
            self.samples[KEPT - 1] = delay;
        }
    }

    // The median of the samples, if there are any.
    pub(crate) fn median(&self) -> Option<u32>
        ensures some { IsSome result ↔ (0 < length self.now) }
        ensures median { IfSome result (λ m. m ≡ median self.now) }
    {
        if self.count == 0 {
            return None;
        }
        let mut samples = self.samples;
        let ordered = &mut samples[..self.count as usize];
        ordered.sort_unstable();
        Some(ordered[ordered.len() / 2])
    }
}
