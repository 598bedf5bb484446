//! The eighteen messages, and how each is a frame.
//!
//! A reader takes and gives the bytes that are left of a body (`Rest`), and reports a fault by their number,
//! so it needs no place. A struct with a model and a lifetime cannot be `Copy`, so they are passed on and
//! used up.
//!
//! A codec gives the fields of a body as nested pairs. The record of each message is made of them once, in
//! specs/Messages.antt.
#![tactic(auto)]

mod bodies;
mod coding;
mod envelope;
mod fault;
mod laws;
mod lists;
mod message;
mod reading;
mod refusal;
mod rest;
mod rising_ids;
mod sizes;
mod spelling;
mod validity;
mod writing;

pub use coding::{LONG_BODY, decode, encode, frame_of, write_body};
pub use envelope::Envelope;
pub use laws::{
    bodies_are_the_grammar, cut_message_is_short, frames_are_the_grammar, frames_come_first,
    no_message_begins_another, one_message, places_of_bodies, reads_back,
};
pub use message::{
    AnswerBody, FastReplyBody, FetchBody, FetchReplyBody, LogModBody, Message, Path, RejoinAskBody,
    RejoinTellBody, RequestBody, SlowReplyBody, StartViewBody, StateAskBody, StateTellBody,
    SyncReportBody, TimedBody, VectorAskBody, VectorTellBody, ViewAskBody, ViewChangeBody,
};
pub use refusal::DecodeRefusal;
