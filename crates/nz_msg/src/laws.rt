//! Laws of the grammar, over all messages and all lists of bytes.

ghost use Rattle.std.specs.Prelude.{◌≡◌, ◌↔◌, ◌<◌, ◌≤◌, ℕ, List, [], ◌++◌, length, Some, Ok, Err};
ghost use Rattle.nz_base.specs.declared.actor.Actor.{Actor};
ghost use Rattle.nz_base.specs.Actor.{HasAddress};
ghost use Rattle.nz_frame.specs.Grammar.{AreBytes};
ghost use Rattle.nz_frame.specs.Refusal.{refusal};
ghost use Rattle.nz_frame.specs.declared.refusal.FrameRefusal.{FrameRefusal};
ghost use Rattle.nz_frame.specs.declared.refusal.FrameRefusal.TheVariants.{Short};
ghost use Rattle.nz_msg.specs.declared.message.Message.{Message};
ghost use Rattle.nz_msg.specs.declared.envelope.Envelope.{Envelope};
ghost use Rattle.nz_msg.specs.declared.refusal.DecodeRefusal.TheVariants.{Frame, BadBody};
ghost use Rattle.nz_msg.specs.Messages.{Fits, IsBody, body_at};
ghost use Rattle.nz_msg.specs.Envelope.{encode_of, Spells, decode_of};

/// What was encoded is decoded again.
pub fn reads_back()
    ensures { (from to : Actor) (message : Message) → HasAddress from → HasAddress to → Fits message
        → decode_of (encode_of from to message) ≡ Ok (record { from = from; to = to; message = message }) }
{}

/// Exactly the bodies of the grammar are read, each as the message that it spells.
pub fn bodies_are_the_grammar()
    ensures { (kind : ℕ) (bytes : List ℕ) (message : Message) → AreBytes bytes
        → (body_at kind bytes ≡ Ok message) ↔ IsBody kind bytes message }
{}

/// Exactly the frames of the grammar are decoded, each as the envelope that it spells. So what is
/// decoded is encoded to the same bytes.
pub fn frames_are_the_grammar()
    ensures { (bytes : List ℕ) (envelope : Envelope) → AreBytes bytes
        → (decode_of bytes ≡ Ok envelope) ↔ Spells envelope bytes }
{}

/// Bytes are the frame of one message from one actor to one actor alone.
pub fn one_message()
    ensures { (bytes : List ℕ) (one other : Envelope) → Spells one bytes → Spells other bytes → one ≡ other }
{}

/// No proper prefix of a message's frame is the frame of a message.
pub fn no_message_begins_another()
    ensures { (bytes rest : List ℕ) (one other : Envelope) → Spells one bytes → Spells other (bytes ++ rest) → rest ≡ [] }
{}

/// A message's frame that is cut is too short, and the place is the number of bytes that are left.
pub fn cut_message_is_short()
    ensures { (bytes rest : List ℕ) (envelope : Envelope) → Spells envelope (bytes ++ rest) → 0 < length rest
        → decode_of bytes ≡ Err (Frame (Short (length bytes))) }
{}

/// Bytes that are no frame are refused as such, before their body is looked at.
pub fn frames_come_first()
    ensures { (bytes : List ℕ) (r : FrameRefusal) → AreBytes bytes
        → (decode_of bytes ≡ Err (Frame r)) ↔ (refusal bytes ≡ Some r) }
{}

/// The place of a refused body is after the header, and at most at the frame's end.
pub fn places_of_bodies()
    ensures { (bytes : List ℕ) (place : ℕ) → AreBytes bytes → decode_of bytes ≡ Err (BadBody place)
        → (10 ≤ place) × (place ≤ length bytes) }
{}
