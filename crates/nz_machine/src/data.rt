//! The data of actors' states.

use nz_base::List;
use nz_cv::CrashVector;
use nz_merge::Report;

/// A replica's mode. Only one in normal operation takes requests.
#[derive(Clone, Copy, Debug, PartialEq, Eq)]
pub enum Status {
    Normal,
    ViewChange,
    Rejoining,
    /// It has crashed, and forgotten all.
    Down,
}

/// Where a request came from: the proxy, and how long its timed message was under way, in clock units,
/// at most 10,000.
#[derive(Clone, Copy, Debug, PartialEq, Eq)]
pub struct Origin {
    pub proxy: u8,
    pub delay: u32,
}

/// An open request of a client: its number, to which proxy it was sent last, and how many ticks ago.
#[derive(Clone, Copy, Debug, PartialEq, Eq)]
pub struct Attempt {
    pub num: u32,
    pub proxy: u8,
    pub since: u32,
}

/// A view change as the new view's leader collects it.
#[derive(Debug, Drop)]
pub struct CollectedReport {
    /// The sender's crash vector, by which the report may become stray.
    pub vector: CrashVector,
    pub report: Report,
}

/// What a replica that rejoins asks the others for, in this order.
#[derive(Clone, Copy, Debug, PartialEq, Eq)]
pub enum Phase {
    /// Their crash vectors.
    Vectors,
    /// Their views.
    Views,
    /// The log of a view's leader.
    Log,
}

/// A rejoin-tell as the replica that rejoins collects it.
#[derive(Clone, Copy, Debug, PartialEq, Eq)]
pub struct ToldView {
    pub sender: u8,
    pub view: u64,
    pub vector: CrashVector,
}

/// How far a rejoin has come.
#[derive(Debug, Drop)]
pub struct Rejoin {
    /// The number of this restart, which each ask and each answer carries.
    pub nonce: u64,
    pub phase: Phase,
    /// The greatest counter of this replica that an answer showed.
    pub claim: u32,
    /// The view whose log was asked for.
    pub wanted: u64,
    /// Who told its crash vector.
    pub tellers: List<u8>,
    /// The views that were told.
    pub tells: List<ToldView>,
}
