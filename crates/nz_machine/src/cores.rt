//! What a core is: an actor that steps as the machine says.

ghost use Rattle.std.specs.Prelude.{◌≡◌, Bool, true, false, IfOk, OnOk, OnErr};
ghost use Rattle.nz_machine.specs.rules.State.{Group};
ghost use Rattle.nz_machine.specs.rules.Step.{Node, node_run};

use super::event::Event;
use super::sends::Sends;
use nz_base::{Actor, NoMemory};

/// An actor that takes events one by one.
pub trait Core {
    /// Who it is, and its state.
    ghost meaning: { Self → Node };

    /// No step has run out of memory.
    ghost live: { Self → Bool };

    /// It may be one of the actors of this group.
    ghost fits: { Self → Group → Type 0 };

    /// Takes the event as the machine says, and gives what is sent. After `NoMemory` no event is taken.
    fn step(&mut self, event: &Event) -> Result<Sends, NoMemory>
        requires { live self.old ≡ true }
        ensures step { IfOk result (λ sends. (g : Group) → fits self.old g → node_run g (meaning self.old) event.now ≡ (meaning self.new, sends)) }
        ensures live { OnOk result (live self.new ≡ true) }
        ensures dead { OnErr result (live self.new ≡ false) }
        ensures fits { (g : Group) → fits self.old g → fits self.new g }
        ensures same { (g : Group) → fits self.new g → fits self.old g };

    /// Whether no step has run out of memory.
    fn is_live(&self) -> bool
        ensures { result ≡ live self.now };

    fn actor(&self) -> Actor
        ensures { result ≡ (meaning self.now).actor };
}
