//! What a replica does with a whole log.

ghost use Rattle.std.specs.Prelude.{◌≡◌, IfOk, OnOk};
ghost use Rattle.nz_log.specs.Synced.{left_out};
ghost use Rattle.nz_store.specs.Sequence.{store_after, replies};
ghost use Rattle.nz_machine.specs.rules.State.{ReplicaData};
ghost use Rattle.nz_machine.specs.rules.Facts.{AreApart, IsCarried};
ghost use Rattle.nz_machine.specs.rules.Replicas.{commands};
ghost use Rattle.nz_machine.specs.rules.Taking.{with_held};
ghost use Rattle.nz_machine.specs.rules.Adopting.{with_log};

use super::held::Held;
use super::sync_keys::keep_each;
use nz_base::{Entry, EntryList, NoMemory};
use nz_buffers::{Early, Late};
use nz_store::{Answer, Store};
use std::alloc::Global;

/// The store that has executed the entries, and its answers to them.
#[tactic(auto, using(crate::proofs::facts::Collects::executed_more, crate::proofs::facts::Collects::answered_more))]
pub fn execute_all(alloc: Global, list: &[Entry]) -> Result<(Store, Vec<Answer>), NoMemory>
    ensures store { IfOk result (λ made. made.0 ≡ store_after (commands list.now)) }
    ensures answers { IfOk result (λ made. made.1.items ≡ replies (commands list.now)) }
{
    let mut store = Store::new(alloc);
    let mut answers = Vec::with_capacity(alloc, list.len())?;
    for entry in list {
        match store.apply_bytes(entry.command.as_slice()) {
            Ok(answer) => answers.push(answer)?,
            Err(_) => return Err(NoMemory),
        }
    }
    Ok((store, answers))
}

/// The ids of the list leave early and late. Mostly these have few entries, or none, and the list has thousands.
#[tactic(auto, using(crate::proofs::facts::Adopts::left_none, crate::proofs::facts::Adopts::left_step, crate::proofs::facts::Adopts::left_nothing))]
fn drop_ids(early: &mut Early, late: &mut Late, list: &[Entry])
    ensures early { early.new ≡ left_out early.old list.now }
    ensures late { late.new ≡ left_out late.old list.now }
{
    for entry in list {
        if early.is_empty() && late.is_empty() {
            return;
        }
        let id = entry.key.id();
        let _ = early.remove(id);
        let _ = late.remove(id);
    }
}

impl Held {
    /// Puts the list in the place of the log, all of it synced. What it leaves out of the log goes to late, its
    /// ids leave early and late, and early entries that are not above its last go to late.
    pub fn adopt(&mut self, list: EntryList) -> Result<(), NoMemory>
        requires apart { AreApart self.old.log self.old.early self.old.late }
        requires list { IsCarried list }
        ensures { (s : ReplicaData) → OnOk result (with_log (with_held s self.old) list ≡ with_held s self.new) }
    {
        drop_ids(&mut self.early, &mut self.late, list.as_slice());
        let left_out = self.log.replace_all(list)?;
        keep_each(&mut self.late, left_out)?;
        self.pass_over()
    }
}
