//! What is known of a replica after a record, and the line that shows what a record changed.

ghost use Rattle.std.specs.Prelude.{◌≡◌, ◌++◌, IfOk, IsTrue, OnOk, codes};
ghost use Rattle.nz_base.specs.Log.{keys_of, AreRising};
ghost use Rattle.nz_story.specs.States.{came, came_text};
ghost use Rattle.nz_story.specs.Known.{Known as KnownModel};
ghost use Rattle.nz_story.specs.Known.{known_of, lists_between, line_of, line_between};

use super::came::{came_in_order, came_of, put_came};
use super::states::put_state;
use nz_base::{Key, NoMemory};
use nz_buffers::{Early, Late};
use nz_log::HashedLog;
use nz_machine::ReplicaState;
use nz_script::put;
use std::alloc::Global;
use std::marker::Model;
use std::mem::swap;

/// What is known of a replica.
#[derive(Drop)]
pub struct Known {
    /// What is shown of its state, but for its lists.
    state: Vec<u8>,
    log: Vec<Key>,
    early: Vec<Key>,
    late: Vec<Key>,
    /// Memory for what is shown of the next state.
    spare: Vec<u8>,
}

impl Model for Known {
    ghost use Rattle.nz_base.specs.Log.{AreRising};
    ghost use Rattle.nz_story.specs.Known.{Known as KnownModel};

    ghost Value = { KnownModel };

    ghost view = { λ k. record { state = k.state.items; log = k.log.items; early = k.early.items; late = k.late.items } };

    ghost invariant = { λ k. AreRising k.log.items × AreRising k.early.items };
}

fn state_of(alloc: Global, state: &ReplicaState) -> Result<Vec<u8>, NoMemory>
    ensures { IfOk result (λ text. text.items ≡ (known_of state.now.state).state) }
{
    let mut text = Vec::new(alloc);
    put_state(&mut text, state)?;
    Ok(text)
}

fn log_keys(alloc: Global, log: &HashedLog) -> Result<Vec<Key>, NoMemory>
    ensures { IfOk result (λ keys. keys.items ≡ keys_of log.now.entries) }
{
    let mut keys = Vec::new(alloc);
    for place in 0..log.len() {
        keys.push(log.get(place).key)?;
    }
    Ok(keys)
}

fn early_keys(alloc: Global, early: &Early) -> Result<Vec<Key>, NoMemory>
    ensures { IfOk result (λ keys. keys.items ≡ keys_of early.now) }
{
    let mut keys = Vec::new(alloc);
    early.append_keys(&mut keys)?;
    Ok(keys)
}

fn late_keys(alloc: Global, late: &Late) -> Result<Vec<Key>, NoMemory>
    ensures { IfOk result (λ keys. keys.items ≡ keys_of late.now) }
{
    let mut keys = Vec::new(alloc);
    late.append_keys(&mut keys)?;
    Ok(keys)
}

/// Whether the keys are those of the log.
fn are_of(keys: &[Key], log: &HashedLog) -> bool
    ensures { IsTrue result → keys.now ≡ keys_of log.now.entries }
{
    if keys.len() != log.len() as usize {
        return false;
    }
    for place in 0..log.len() {
        if keys[place as usize] != log.get(place).key {
            return false;
        }
    }
    true
}

impl Known {
    /// What is known of a replica in this state.
    pub fn new(alloc: Global, state: &ReplicaState) -> Result<Known, NoMemory>
        ensures { IfOk result (λ known. known ≡ known_of state.now.state) }
    {
        state.show_invariant();
        Ok(Known {
            state: state_of(alloc, state)?,
            log: log_keys(alloc, state.log())?,
            early: early_keys(alloc, state.early())?,
            late: late_keys(alloc, state.late())?,
            spare: Vec::new(alloc),
        })
    }
}

/// Writes which keys came to the log, of which these were the keys. Now they are as they are.
fn put_log(
    alloc: Global,
    out: &mut Vec<u8>,
    keys: &mut Vec<Key>,
    log: &HashedLog,
) -> Result<(), NoMemory>
    requires before { AreRising keys.old.items }
    requires after { AreRising (keys_of log.now.entries) }
    ensures keys { OnOk result (keys.new.items ≡ keys_of log.now.entries) }
    ensures rising { AreRising keys.new.items }
    ensures written { OnOk result (out.new.items ≡ out.old.items ++ came_text (codes " log") (came keys.old.items (keys_of log.now.entries))) }
{
    if are_of(keys.as_slice(), log) {
        return Ok(());
    }
    let after = log_keys(alloc, log)?;
    let came = came_in_order(alloc, keys.as_slice(), after.as_slice())?;
    put_came(out, b" log", came.as_slice())?;
    *keys = after;
    Ok(())
}

fn put_early(
    alloc: Global,
    out: &mut Vec<u8>,
    keys: &mut Vec<Key>,
    early: &Early,
) -> Result<(), NoMemory>
    requires before { AreRising keys.old.items }
    requires after { AreRising (keys_of early.now) }
    ensures keys { OnOk result (keys.new.items ≡ keys_of early.now) }
    ensures rising { AreRising keys.new.items }
    ensures written { OnOk result (out.new.items ≡ out.old.items ++ came_text (codes " early") (came keys.old.items (keys_of early.now))) }
{
    let after = early_keys(alloc, early)?;
    let came = came_in_order(alloc, keys.as_slice(), after.as_slice())?;
    put_came(out, b" early", came.as_slice())?;
    *keys = after;
    Ok(())
}

fn put_late(
    alloc: Global,
    out: &mut Vec<u8>,
    keys: &mut Vec<Key>,
    late: &Late,
) -> Result<(), NoMemory>
    ensures keys { OnOk result (keys.new.items ≡ keys_of late.now) }
    ensures written { OnOk result (out.new.items ≡ out.old.items ++ came_text (codes " late") (came keys.old.items (keys_of late.now))) }
{
    let after = late_keys(alloc, late)?;
    let came = came_of(alloc, keys.as_slice(), after.as_slice())?;
    put_came(out, b" late", came.as_slice())?;
    *keys = after;
    Ok(())
}

/// Writes the line, if there is something to show.
fn put_line(out: &mut Vec<u8>, before: &[u8], after: &[u8], lists: &[u8]) -> Result<(), NoMemory>
    ensures { OnOk result (out.new.items ≡ out.old.items ++ line_of before.now after.now lists.now) }
{
    if before == after && lists.is_empty() {
        return Ok(());
    }
    put(out, b"  now ")?;
    put(out, after)?;
    put(out, lists)?;
    put(out, b"\n")
}

impl Known {
    /// Writes which keys came to the lists.
    fn put_lists(
        &mut self,
        alloc: Global,
        out: &mut Vec<u8>,
        state: &ReplicaState,
    ) -> Result<(), NoMemory>
        ensures known { OnOk result (self.new ≡ record (known_of state.now.state) { state = self.old.state }) }
        ensures written { OnOk result (out.new.items ≡ out.old.items ++ lists_between self.old (known_of state.now.state)) }
    {
        state.show_invariant();
        put_log(alloc, out, &mut self.log, state.log())?;
        put_early(alloc, out, &mut self.early, state.early())?;
        put_late(alloc, out, &mut self.late, state.late())
    }

    /// Writes the line of a step that leads to this state.
    pub fn put_now(
        &mut self,
        alloc: Global,
        out: &mut Vec<u8>,
        state: &ReplicaState,
    ) -> Result<(), NoMemory>
        ensures known { OnOk result (self.new ≡ known_of state.now.state) }
        ensures written { OnOk result (out.new.items ≡ out.old.items ++ line_between self.old (known_of state.now.state)) }
    {
        let mut lists = Vec::new(alloc);
        self.put_lists(alloc, &mut lists, state)?;
        self.spare.clear();
        put_state(&mut self.spare, state)?;
        put_line(
            out,
            self.state.as_slice(),
            self.spare.as_slice(),
            lists.as_slice(),
        )?;
        swap(&mut self.state, &mut self.spare);
        Ok(())
    }
}
