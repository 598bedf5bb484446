//! The history of a run, read off its journal. Where the run stayed in its first view, the events of its clients and its
//! replicas are enough.
//!
//! The definition finds an accepted prefix at a source, the first record that sent the deciding reply. Two
//! numbers, a replica and how many records there are up to the source, name it. The search rests on no
//! premise on digests.
//!
//! - Where each replica is up in view 0 at the end, no later view was ever led
//!   (`nothing_is_accepted_above`). Then each accepted prefix is the beginning of the log of the leader of
//!   view 0, and the longest ends with that accepted request which is last in this log (prefixes/first_view.rt). What
//!   follows is for all other runs.
//! - A prefix has at most as many entries as requests were sent before its acceptance, since ids in a log
//!   differ and each was sent. So a first round looks only at answers before which at least as many requests
//!   were sent as answers were accepted in all: mostly the longest prefix has as many entries. A second
//!   round looks at the others that may still be as long as the longest of the first. Mostly there are none.
//! - A round finds the sources of its answers by one pass over the records (sources/reading.rt). For the requests of
//!   these answers alone it keeps the source of each parcel from its first sending, and what each proxy
//!   knows of each request, with the source of each noted reply. Only replies whose frame shows an answer,
//!   and answers, are decoded for the sources.
//! - The log of a leader only grows while it leads a view. So where a replica still leads the view of its
//!   reply at the end, its log begins with the prefix (prefixes/leaders.rt). If it leads a later view, it does so
//!   only if digests do not collide, which the search may not use.
//! - Else the prefix is counted by a replay of the replica up to the source (prefixes/replays.rt). The prefixes of
//!   one replica are counted in the order of their sources, so that one replay serves them all, and the
//!   replica with the latest source comes first. The replica of the longest prefix is kept for the
//!   execution.
#![tactic(auto)]

mod accepted;
mod execute;
mod history;
mod prefixes;
mod sources;

pub use history::history_of;
pub use prefixes::first_view::first_history;
