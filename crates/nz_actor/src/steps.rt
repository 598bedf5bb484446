//! Several steps of a core.

ghost use Rattle.std.specs.Prelude.{◌≡◌, true, IfOk, OnOk};
ghost use Rattle.nz_machine.specs.rules.State.{Group};
ghost use Rattle.nz_fabric.specs.threads.Steps.{node_from, sends_from};

use nz_base::NoMemory;
use nz_machine::{Core, Event, Sends};
use std::alloc::Global;

/// The core takes these events, one after another. Gives what is sent on each.
pub fn step_all<C: Core>(
    alloc: Global,
    core: &mut C,
    events: &[Event],
) -> Result<Vec<Sends>, NoMemory>
    requires { C.live core.old ≡ true }
    ensures sends { IfOk result (λ all. (g : Group) → C.fits core.old g → all.items ≡ sends_from g (C.meaning core.old) events.now) }
    ensures node { OnOk result ((g : Group) → C.fits core.old g → C.meaning core.new ≡ node_from g (C.meaning core.old) events.now) }
    ensures live { OnOk result (C.live core.new ≡ true) }
    ensures fits { (g : Group) → C.fits core.old g → C.fits core.new g }
{
    let mut all = Vec::with_capacity(alloc, events.len())?;
    for event in events {
        let sends = core.step(event)?;
        all.push_reserved(sends);
    }
    Ok(all)
}
