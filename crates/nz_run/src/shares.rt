//! How the ledger is dealt out to workers, and put together again.

ghost use Rattle.std.specs.Prelude.{◌≡◌, ◌+◌, ◌<◌, ◌≤◌, ℕ, [], length, vec_len, vec_capacity, All, sum_by};
ghost use Rattle.nz_base.specs.declared.limits.TheConstants.{MAX_WORKERS};
ghost use Rattle.nz_fabric.specs.threads.Shared.{IsWhole};

use nz_fabric::{RunName, Share};

/// A worker, with its share.
#[derive(Drop)]
pub struct Worker<N: RunName> {
    pub number: u8,
    pub share: Share<N>,
}

/// Deals the whole share out.
pub fn deal<N: RunName>(whole: Share<N>, workers: &mut Vec<Worker<N>>, count: u8)
    requires whole { IsWhole whole }
    requires count { (0 < count) × (count ≤ MAX_WORKERS) }
    requires room { (workers.old.items ≡ []) × (count ≤ vec_capacity workers.old) }
    ensures len { vec_len workers.new ≡ count }
    ensures idle { All (λ w. w.share.amount ≡ 0) workers.new.items }
    ensures parts { sum_by (λ w. w.share.parts) workers.new.items ≡ MAX_WORKERS }
{
    let mut rest = whole;
    'dealt: for number in 1..count {
        let share = rest.split();
        workers.push_reserved(Worker { number, share });
    }
    workers.push_reserved(Worker {
        number: 0,
        share: rest,
    });
}

/// Puts the shares together again.
pub fn gather<N: RunName>(workers: Vec<Worker<N>>) -> Share<N>
    requires idle { All (λ w. w.share.amount ≡ 0) workers.items }
    requires parts { sum_by (λ w. w.share.parts) workers.items ≡ MAX_WORKERS }
    ensures { IsWhole result }
{
    let mut workers = workers;
    let Some(first) = workers.pop() else {
        unreachable!();
    };
    let Worker {
        number: _,
        mut share,
    } = first;
    'gathered: while let Some(worker) = workers.pop() {
        let Worker {
            number: _,
            share: other,
        } = worker;
        share.join(other);
    }
    share
}
