//! That what replicas know to be committed stays.

ghost use Rattle.std.specs.Prelude.{List};
ghost use Rattle.nz_base.specs.declared.key.Entry.{Entry};
ghost use Rattle.nz_machine.specs.declared.event.Record.{Record};
ghost use Rattle.nz_machine.specs.rules.State.{Group};
ghost use Rattle.nz_machine.specs.runs.World.{World};
ghost use Rattle.nz_machine.specs.runs.OneHistory.{NoCollision, IsAccepted};
ghost use Rattle.nz_observe.specs.Ticks.{StableAtTicks, IsComparableAtTicks};

/// In every run of the machine, what a replica knew to be committed at the end of some tick stays: each view above the
/// replica's last one starts with it, the same incarnation knows no less at later ticks, and any two replicas know
/// comparable prefixes at whatever ticks. Only that it is comparable with what was accepted needs the premise on digests.
pub fn stable()
    ensures stable { (g : Group) (J : List Record) → World g J → StableAtTicks g J }
    ensures accepted { (g : Group) (J : List Record) → World g J → NoCollision g J → (A : List Entry) → IsAccepted g A J → IsComparableAtTicks g J A }
{}
