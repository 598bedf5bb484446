//! What an actor reads of a parcel.

ghost use Rattle.std.specs.Prelude.{◌≡◌, ◌≢◌, IfOk, IfSome};
ghost use Rattle.nz_base.specs.Actor.{HasAddress};
ghost use Rattle.nz_msg.specs.Messages.{Fits};
ghost use Rattle.nz_machine.specs.rules.Step.{is_for, envelope_for};

use super::event::Parcel;
use nz_base::{Actor, NoMemory};
use nz_msg::{DecodeRefusal, Envelope, decode};
use std::alloc::Global;

fn is_for(me: Actor, parcel: &Parcel, envelope: &Envelope) -> bool
    ensures { result ≡ is_for me parcel.now envelope.now }
{
    envelope.from.is(&parcel.from)
        && envelope.to.is(&parcel.to)
        && envelope.to.is(&me)
        && !envelope.from.is(&me)
}

/// What an actor reads of a parcel: nothing where the frame is none of the grammar, where it names others than the parcel
/// does or another receiver, or where the actor itself sent it.
#[tactic(auto, unfolding(crate::specs::rules::Step::envelope_for))]
pub fn heard(alloc: Global, me: Actor, parcel: &Parcel) -> Result<Option<Envelope>, NoMemory>
    ensures value { IfOk result (λ envelope. envelope ≡ envelope_for me parcel.now) }
    ensures address { IfOk result (λ envelope. IfSome envelope (λ e. HasAddress e.from)) }
    ensures other { IfOk result (λ envelope. IfSome envelope (λ e. e.from ≢ me)) }
    ensures fits { IfOk result (λ envelope. IfSome envelope (λ e. Fits e.message)) }
{
    match decode(alloc, &parcel.frame) {
        Ok(envelope) if is_for(me, parcel, &envelope) => Ok(Some(envelope)),
        Err(DecodeRefusal::NoMemory) => Err(NoMemory),
        Ok(_) | Err(_) => Ok(None),
    }
}
