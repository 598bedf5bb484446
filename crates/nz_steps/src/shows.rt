//! How an actor is.

use crate::stage::Stop;
use nz_client::Client;
use nz_log::HashedLog;
use nz_machine::{Phase, ReplicaState, Status};
use nz_replica::Replica;
use std::alloc::Global;

fn mode_of(state: &ReplicaState) -> &'static str {
    match state.status() {
        Status::Normal => "normal",
        Status::ViewChange => "view-change",
        Status::Down => "down",
        Status::Rejoining => match state.phase() {
            Phase::Vectors => "rejoining vectors",
            Phase::Views => "rejoining views",
            Phase::Log => "rejoining log",
        },
    }
}

/// The keys of the log, each with a space before it.
fn keys_of(alloc: Global, log: &HashedLog) -> Result<String, Stop> {
    let mut keys = String::new(alloc);
    for place in 0..log.len() {
        let key = log.get(place).key;
        let (deadline, client, num) = (key.deadline, key.client, key.num);
        keys.push_str(format!(in alloc; " {deadline}/{client}/{num}")?.as_str())?;
    }
    Ok(keys)
}

/// Its mode, its view and the one it asked for, its counts, and the keys of its log.
pub fn show_replica(alloc: Global, replica: &Replica) -> Result<String, Stop> {
    let state = replica.state();
    let (mode, view, wanted) = (mode_of(state), state.view(), state.wanted_view());
    let (synced, commit) = (state.log().synced(), state.commit());
    let (early, late) = (state.early().len(), state.late().len());
    let keys = keys_of(alloc, state.log())?;
    Ok(format!(in alloc;
        "{mode}, view {view}, wanted {wanted}, synced {synced}, commit {commit}, early {early}, late {late}, log{keys}\n"
    )?)
}

/// The least number of an open request, or 0, and how many were accepted.
pub fn show_client(alloc: Global, client: &Client) -> Result<String, Stop> {
    let (open, accepted) = (client.open().unwrap_or(0), client.finished());
    Ok(format!(in alloc; "open {open}, accepted {accepted}\n")?)
}
