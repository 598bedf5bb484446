//! Laws of locks, each the contract of a function with nothing to do.
ghost use Rattle.std.specs.Prelude.{List};
ghost use Rattle.nz_base.specs.declared.key.Entry.{Entry};
ghost use Rattle.nz_machine.specs.declared.event.Record.{Record};
ghost use Rattle.nz_machine.specs.rules.State.{Group};
ghost use Rattle.nz_machine.specs.declared.client_event.ClientEvent.{ClientEvent};
ghost use Rattle.nz_machine.specs.runs.History.{history};
ghost use Rattle.nz_machine.specs.runs.OneHistory.{Lin};
ghost use Rattle.nz_machine.specs.runs.World.{World};
ghost use Rattle.nz_locks.specs.Clean.{AreClean, IsClean};
ghost use Rattle.nz_locks.specs.Exclusive.{HasOneHolder, AreInTurn};

/// Nobody holds a lock that somebody else holds, and an acquire that was accepted is over before another one that
/// was sent later takes the lock.
pub fn exclusive()
    ensures one_holder { (H : List Entry) → IsClean H → HasOneHolder H }
    ensures in_turn { (E : List ClientEvent) (H : List Entry) → Lin E H → IsClean H → AreInTurn E H }
{}

/// The history of a run has no foul command where the clients' requests have none.
pub fn histories_are_clean()
    ensures { (g : Group) (J : List Record) → World g J → AreClean g.scripts → IsClean (history g J) }
{}
