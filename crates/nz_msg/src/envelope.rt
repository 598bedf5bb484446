//! A message with its sender and its receiver.

use super::message::Message;
use nz_base::Actor;

/// A message with who sends it and who gets it.
#[derive(Debug, Drop)]
pub struct Envelope {
    pub from: Actor,
    pub to: Actor,
    pub message: Message,
}
