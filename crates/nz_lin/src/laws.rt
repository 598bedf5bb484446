//! The laws over all runs, up to one history.

ghost use Rattle.std.specs.Prelude.{◌≡◌, ℕ, List};
ghost use Rattle.nz_base.specs.Key.{id_of};
ghost use Rattle.nz_base.specs.declared.actor.Actor.TheVariants.{Replica};
ghost use Rattle.nz_base.specs.declared.key.Entry.{Entry};
ghost use Rattle.nz_base.specs.declared.scenario.Scenario.{Scenario};
ghost use Rattle.nz_machine.specs.declared.event.Parcel.{Parcel};
ghost use Rattle.nz_machine.specs.declared.event.Record.{Record};
ghost use Rattle.nz_machine.specs.rules.State.{Group};
ghost use Rattle.nz_machine.specs.rules.Facts.{HasFacts};
ghost use Rattle.nz_machine.specs.runs.Schedule.{group_of, InOrder};
ghost use Rattle.nz_machine.specs.runs.Deployments.{IsDeployment};
ghost use Rattle.nz_machine.specs.runs.World.{state_after, sent_in, Has, World};
ghost use Rattle.nz_machine.specs.declared.client_event.ClientEvent.TheVariants.{Sent};
ghost use Rattle.nz_machine.specs.runs.Events.{events};
ghost use Rattle.nz_machine.specs.runs.History.{log_at, history};
ghost use Rattle.nz_machine.specs.runs.OneHistory.{Lin, NoCollision, ArePaired};
ghost use Rattle.nz_lin.specs.Laws.{IsDecoded};
ghost use Rattle.nz_laws_commit.specs.Once.{AreOnce};
ghost use Rattle.nz_lin.specs.Replied.{replied_lists, HaveOwnDigests};
ghost use Rattle.nz_lin.specs.Snapshots.{IsSnapshot};

/// Each parcel that was sent is decoded as one message, from its sender to its receiver.
pub fn each_parcel_decodes()
    ensures { (g : Group) (J : List Record) (parcel : Parcel) → World g J → Has (sent_in J) parcel → IsDecoded parcel }
{}

/// Each replica's state has its facts.
pub fn facts_stay()
    ensures { (g : Group) (J : List Record) (r : ℕ) → World g J → HasFacts g.f r (state_after g (Replica r) J) }
{}

/// Each message that was sent is read off its sender's states before and after the record that first sent it.
pub fn messages_are_snapshots()
    ensures { (g : Group) (J : List Record) (parcel : Parcel) → World g J → Has (sent_in J) parcel → IsSnapshot g J parcel }
{}

/// Each entry in the log of a replica was sent by its client before, with this command.
pub fn own_commands()
    ensures { (g : Group) (J : List Record) (r : ℕ) (e : Entry) → World g J → Has (log_at g (Replica r) J) e
        → Has (events g J) (Sent (id_of e.key) e.command) }
{}

/// In every run each request is sent once, and accepted at most once and after that; and a client has at most as
/// many requests open as its window.
pub fn once_each()
    ensures { (g : Group) (J : List Record) → World g J → AreOnce g.window (events g J) }
{}

/// The premise on digests holds of a run where no two different ones of the lists that its parcels say have one
/// digest.
pub fn premise_on_digests()
    ensures { (g : Group) (J : List Record) → World g J → HaveOwnDigests (replied_lists g J) → NoCollision g J }
{}

/// Where of any two accepted prefixes one begins with the other, the answers that clients accepted are those
/// of one store that executes the history.
pub fn history_of_paired_prefixes()
    ensures { (g : Group) (J : List Record) → World g J → ArePaired g J → Lin (events g J) (history g J) }
{}

/// In every run with the premise on digests, whatever was lost, repeated, reordered or cut, whatever clocks read and
/// whoever crashes and rejoins, the answers that clients accepted are those of one store that executes the history.
pub fn one_history()
    ensures { (g : Group) (J : List Record) → World g J → NoCollision g J → Lin (events g J) (history g J) }
{}

/// A run in order is a function of its scenario: two runs of the machine that have all ticks of one scenario, each in
/// its order, are the same.
pub fn one_run_in_order()
    ensures { (s : Scenario) (J K : List Record) → World (group_of s) J → World (group_of s) K → InOrder s J → InOrder s K → J ≡ K }
{}

/// The answers that clients accept are those of one store that executes the history, on the premise on digests: where nodes
/// each keep to the machine by themselves, over links that deliver only what was sent, and no nonce comes twice.
pub fn deployment_has_one_history()
    ensures { (g : Group) (J : List Record) → IsDeployment g J → NoCollision g J → Lin (events g J) (history g J) }
{}
