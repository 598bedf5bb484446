//! The delays that a proxy measures, and the bound that it stamps deadlines with.
#![tactic(auto)]

ghost use Rattle.std.specs.Prelude.{◌≡◌, ℕ, ◌<◌, ◌≤◌, length, replicate, []};
ghost use Rattle.nz_window.specs.Samples.{with_sample, bound_of};

mod laws;
mod recent;

pub use laws::{samples_are_ordered, windows_stay_small};
use recent::Recent;
use std::marker::Model;

/// The most replicas of a cluster. This crate has nothing below it: the same number is `nz_base::MAX_REPLICAS`.
const MAX_REPLICAS: usize = 9;

/// What a sample counts as at most, and the bound while a replica has no sample, in clock units:
/// the same number as `nz_base::MAX_DELAY`.
const MAX_DELAY: u32 = 10_000;

/// The last 32 delays that a proxy measured to each replica, in clock units (Geng et al., PVLDB 16(4)).
#[derive(Drop)]
pub struct Window {
    replicas: [Recent; MAX_REPLICAS],
    size: u8,
}

impl Model for Window {
    ghost use Rattle.std.specs.Prelude.{List, ℕ, take};
    ghost use Rattle.nz_window.specs.Layout.{AreInUse};

    ghost Value = { List (List ℕ) };

    ghost view = { λ w. take w.size w.replicas };

    ghost invariant = { λ w. AreInUse w.replicas w.size };
}

impl Window {
    /// No samples yet of each of `size` replicas.
    pub fn new(size: u8) -> Window
        requires least { 1 ≤ size }
        requires most { size ≤ 9 }
        ensures { result ≡ replicate size [] }
    {
        Window {
            replicas: [Recent::new(); MAX_REPLICAS],
            size,
        }
    }

    /// Takes in one delay, in clock units, measured to the replica with this number.
    pub fn sample(&mut self, replica: u8, delay: u32)
        requires { replica < length self.old }
        ensures { self.new ≡ with_sample self.old replica delay }
    {
        self.replicas[replica as usize].push(delay.min(MAX_DELAY));
    }

    /// The delay, in clock units, within which a message is taken to reach every replica.
    pub fn bound(&self) -> u32
        ensures value { result ≡ bound_of self.now }
        ensures most { result ≤ 10000 }
    {
        let mut bound = 0;
        for recent in &self.replicas[..self.size as usize] {
            match recent.median() {
                Some(median) => bound = bound.max(median),
                None => return MAX_DELAY,
            }
        }
        bound
    }
}

#[cfg(test)]
mod tests {
    use super::*;

    fn bound_after(samples: &[(u8, u32)]) -> u32 {
        let mut window = Window::new(3);
        for &(replica, delay) in samples {
            if replica < 3 {
                window.sample(replica, delay);
            }
        }
        window.bound()
    }

    // The bounds are worked by hand.
    #[test]
    fn bound_is_the_greatest_median(rt: HostRuntime) {
        let nothing_of_the_third: &[(u8, u32)] = &[(0, 5), (1, 7), (0, 6)];
        let three_of_the_first: &[(u8, u32)] = &[(0, 40), (1, 5), (0, 10), (2, 6), (0, 30)];
        let four_of_the_first: &[(u8, u32)] = &[(0, 40), (0, 10), (2, 6), (0, 30), (1, 5), (0, 20)];
        let one_far_too_slow: &[(u8, u32)] = &[(0, 40), (1, 50_000), (2, 6)];
        let table = [
            (nothing_of_the_third, 10_000),
            (three_of_the_first, 30),
            (four_of_the_first, 30),
            (one_far_too_slow, 10_000),
        ];
        for (samples, bound) in table {
            assert_eq!(rt; bound_after(samples), bound);
        }
    }

    // Of the delays 0 to 31 the median is 16; the 33rd sample pushes out the 0, and it is 17.
    #[test]
    fn only_the_last_32_samples_count(rt: HostRuntime) {
        let mut window = Window::new(1);
        for delay in 0..32 {
            window.sample(0, delay);
        }
        assert_eq!(rt; window.bound(), 16);
        window.sample(0, 32);
        assert_eq!(rt; window.bound(), 17);
    }
}
