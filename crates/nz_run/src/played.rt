//! What a run gives.

use nz_machine::Journal;
use nz_replica::Replica;

/// A run that was played.
#[derive(Drop)]
pub struct Played {
    pub journal: Journal,
    /// The replicas after the last record, by their numbers.
    pub replicas: Vec<Replica>,
}
