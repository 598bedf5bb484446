//! The machine: the rules of all actors as definitions, what a run of the world is, and what the code of
//! an actor is held to.
//!
//! Words of this crate, beside those of the rules:
//!
//! - An *outbox* is what a step has sent so far, with the *room* of its actor: the memory that bodies of
//!   small messages are written in, one after the other. A *shared parcel* is in memory once, for the
//!   records of its sending and its arrivals and for the calendar. An *envelope* is a message with its
//!   sender and receiver.
//! - A *row* is 16 bytes of a journal: a silent tick itself, or where another record is stored.
//! - A *fact* is what holds of every state of a replica (`HasFacts`), a *move* one of the small ways in
//!   which a rule changes a state.
//! - A *standing* is what a proxy knows of a request: its *tally* of replies, or the decided answer and its
//!   path. A *sample* is a delay of a replica, as a proxy has seen it.
//! - A *claim* is the greatest value of its own counter that others have told a rejoining replica, a
//!   *teller* one that told it a vector. A *member* of a begin is a replica whose report the view began
//!   from, the leader included.
#![tactic(auto)]

mod adopting;
mod answers;
mod buffers;
mod client_event;
mod client_progress;
mod commit_quorum;
mod cores;
mod data;
mod event;
mod event_notes;
mod forgotten;
mod frame_kind;
mod from_cluster;
mod held;
mod journal;
mod laws;
mod outbox;
mod receiving;
mod records;
mod reply;
mod replying;
mod reports;
mod sends;
mod state;
mod sync_keys;

pub use answers::copy_answer;
pub use client_event::{ClientEvent, EventAt, EventList};
pub use client_progress::{Clients, Progress};
pub use cores::Core;
pub use data::{Attempt, CollectedReport, Origin, Phase, Rejoin, Status, ToldView};
pub use event::{Event, Parcel, Record, SharedParcel};
pub use event_notes::{Notes, client_events_in};
pub use forgotten::Forgotten;
pub use frame_kind::kind_of;
pub use from_cluster::is_from_cluster;
pub use journal::{Executed, History, Item, Journal};
pub use laws::{
    due_entries_are_released, events_are_read, facts_are_kept, lanes_are_a_run,
    receivers_take_part, scheduled_steps_are_a_run,
};
pub use outbox::Outbox;
pub use receiving::heard;
pub use records::{RecordList, RecordRef, Recording};
pub use reply::{Reply, ReplyList};
pub use sends::Sends;
pub use state::ReplicaState;
