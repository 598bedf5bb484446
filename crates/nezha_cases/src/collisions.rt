//! The premise of one history on a run, by its definition: of the lists of keys that replicas replied over, no
//! two that differ have the same digest.

use crate::cases::Case;
use crate::report::{Stop, print_line};
use crate::runs::scenario_of;
use nz_base::{Actor, Cluster, Id, Key, NoMemory};
use nz_digest::Digest;
use nz_log::HashedLog;
use nz_machine::{Core, Record, RecordList};
use nz_msg::{DecodeRefusal, Message, decode};
use nz_replica::Replica;
use nz_run::run_alone;
use std::alloc::Global;

/// The keys of a log up to the entry that was replied to, and their digest.
#[derive(Drop)]
struct RepliedOver {
    keys: Vec<Key>,
    digest: Digest,
}

/// Nothing where the log does not have the request.
fn replied_over(alloc: Global, id: Id, log: &HashedLog) -> Result<Option<RepliedOver>, NoMemory> {
    let Some(place) = log.place_of(id) else {
        return Ok(None);
    };
    let mut keys = Vec::new(alloc);
    for at in 0..place {
        keys.push(log.get(at).key)?;
    }
    keys.push(log.get(place).key)?;
    Ok(Some(RepliedOver {
        keys,
        digest: log.digest_at(place),
    }))
}

/// Adds that of a fast reply over the log.
fn add_reply(
    alloc: Global,
    message: &Message,
    log: &HashedLog,
    lists: &mut Vec<RepliedOver>,
) -> Result<(), NoMemory> {
    if let Message::FastReply(body) = message {
        if let Some(list) = replied_over(alloc, body.id, log)? {
            lists.push(list)?;
        }
    }
    Ok(())
}

/// Adds those of the fast replies that the record sends, over the log after it.
fn add_replies(
    alloc: Global,
    record: &Record,
    log: &HashedLog,
    lists: &mut Vec<RepliedOver>,
) -> Result<(), NoMemory> {
    for parcel in record.sends.as_slice() {
        match decode(alloc, &parcel.get().frame) {
            Ok(envelope) => add_reply(alloc, &envelope.message, log, lists)?,
            Err(DecodeRefusal::NoMemory) => return Err(NoMemory),
            Err(_) => {}
        }
    }
    Ok(())
}

/// Adds those of all records of one replica, whose state they lead to.
fn add_replica(
    alloc: Global,
    cluster: Cluster,
    number: u8,
    records: &RecordList,
    lists: &mut Vec<RepliedOver>,
) -> Result<(), NoMemory> {
    if number >= cluster.n() {
        return Ok(());
    }
    let mut replica = Replica::new(alloc, cluster, number)?;
    for place in 0..records.len() {
        let next = records.get(place);
        let record = next.as_record();
        if record.actor.is(&Actor::Replica(number)) {
            if replica.is_live() {
                replica.step(&record.event)?;
            }
            add_replies(alloc, record, replica.log(), lists)?;
        }
    }
    Ok(())
}

fn collides(list: &RepliedOver, others: &[RepliedOver]) -> bool {
    others.iter().any(|other| list.digest == other.digest && list.keys != other.keys)
}

/// How many of the lists have the digest of another one.
fn count_colliding(lists: &[RepliedOver]) -> u32 {
    let mut count = 0u32;
    for list in lists {
        if collides(list, lists) {
            count = count.saturating_add(1);
        }
    }
    count
}

/// How many lists there are, and how many of them have the digest of another one.
pub fn play_collisions<R: Print>(rt: &R, alloc: Global, case: &Case) -> Result<(), Stop> {
    let scenario = scenario_of(alloc, case.input.as_str())?;
    let played = run_alone(alloc, &scenario)?;
    let journal = &played.journal;
    let cluster = journal.scenario.cluster;
    let mut lists = Vec::new(alloc);
    for number in 0..cluster.n() {
        add_replica(alloc, cluster, number, &journal.records, &mut lists)?;
    }
    let (count, colliding) = (lists.len(), count_colliding(&lists));
    let name = case.name.as_str();
    let line = format!(in alloc;
        "{name}: {count} lists of keys were replied over, {colliding} collide"
    )?;
    print_line(rt, line.as_str())
}
