//! The release rule.

ghost use Rattle.std.specs.Prelude.{◌≡◌, ◌∷◌, ◌++◌, List, map, IsTrue, OnOk};
ghost use Rattle.nz_base.specs.declared.actor.Actor.TheVariants.{Replica};
ghost use Rattle.nz_base.specs.declared.key.Entry.{Entry};
ghost use Rattle.nz_machine.specs.rules.Replicas.{is_normal};
ghost use Rattle.nz_machine.specs.rules.Releases.{after_release, release_replies, first_may, releases, release_rule};
ghost use Rattle.nz_machine.specs.rules.Does.{Does};
ghost use Rattle.nz_machine.specs.rules.Step.{parcel};

use nz_base::NoMemory;
use nz_machine::{Outbox, ReplicaState};

/// Releases the first early entry, and replies to its request.
fn release_first(state: &mut ReplicaState, sends: &mut Outbox) -> Result<(), NoMemory>
    requires normal { IsTrue (is_normal state.old.state.status) }
    requires first { IsTrue (first_may state.old.state state.old.state.early) }
    ensures state { OnOk result ((e : Entry) (es : List Entry) → state.old.state.early ≡ e ∷ es
        → state.new ≡ record state.old { state = after_release state.old.f state.old.me state.old.state e es }) }
    ensures sends { OnOk result ((e : Entry) (es : List Entry) → state.old.state.early ≡ e ∷ es
        → sends.new ≡ sends.old ++ map (parcel (Replica state.old.me))
        (release_replies state.old.f state.old.me (after_release state.old.f state.old.me state.old.state e es) e)) }
{
    let place = state.log().len();
    let id = state.release()?;
    state.reply_fast(id, place, sends)
}

/// Releases early entries up to the first that may not be.
fn release_due(state: &mut ReplicaState, sends: &mut Outbox) -> Result<(), NoMemory>
    requires normal { IsTrue (is_normal state.old.state.status) }
    ensures { let s = state.old in OnOk result (Does s state.new sends.old sends.new (releases s.f s.me s.state s.state.early)) }
{
    'due: while state.may_release() {
        release_first(state, sends)?;
    }
    Ok(())
}

/// The release rule: what a replica does when its clock reads this many clock units.
#[tactic(auto, unfolding(nz_machine::specs::rules::Releases::release_rule))]
pub fn tick(state: &mut ReplicaState, clock: u64, sends: &mut Outbox) -> Result<(), NoMemory>
    ensures { let s = state.old in OnOk result (Does s state.new sends.old sends.new (release_rule s.f s.me s.state clock)) }
{
    state.set_clock(clock);
    if state.is_normal() {
        release_due(state, sends)?;
    }
    Ok(())
}
