//! AcceptedAt answers, each traced to where it comes from.

ghost use Rattle.std.specs.Prelude.{◌≡◌, IfOk, OnOk};
ghost use Rattle.std.specs.List.{AllByRecursion, list_any};
ghost use Rattle.std.specs.HashSet.{contains};
ghost use Rattle.nz_base.specs.Key.{id_eq};
ghost use Rattle.nz_base.specs.declared.key.Id.{Id as IdModel};
ghost use Rattle.nz_machine.specs.journals.Journals.{group_in, run_in};
ghost use Rattle.nz_machine.specs.runs.World.{World};
ghost use Rattle.nz_audit.specs.Prefixes.{is_to, IsAccepted, traced, all_traced, with_accepted};
ghost use Rattle.nz_audit.specs.Readings.{IsKnown};

use crate::accepted::answers::{AcceptedAt, Traced};
use crate::sources::reading::sendings_in;
use crate::sources::sendings::Sendings;
use nz_base::{Id, NoMemory};
use nz_machine::Journal;
use std::alloc::Global;
use std::collections::HashSet;

/// The requests that these are answers to.
fn requests_of(alloc: Global, answers: &[AcceptedAt]) -> Result<HashSet<Id>, NoMemory>
    ensures { IfOk result (λ ids. (id : IdModel) → contains id_eq ids id ≡ list_any (is_to id) answers.now) }
{
    let mut ids = HashSet::new(alloc);
    for answer in answers {
        ids.insert(answer.id)?;
    }
    Ok(ids)
}

/// Adds the answer with its source, if it has one.
fn add_traced(
    found: &mut Vec<Traced>,
    sendings: &Sendings,
    journal: &Journal,
    answer: &AcceptedAt,
) -> Result<(), NoMemory>
    requires accepted { IsAccepted journal.now answer.now }
    requires source { IsKnown journal.now sendings.now.kept.entries answer.now }
    ensures { OnOk result (found.new.items ≡ with_accepted found.old.items (traced journal.now answer.now)) }
{
    let accepting = journal.records.get(answer.place);
    if let Some(source) = sendings.source_of_event(&accepting.as_record().event)? {
        found.push(Traced {
            accepted: *answer,
            source,
        })?;
    }
    Ok(())
}

/// What each parcel stands for that was sent about the request of one of these answers. One reading of the records finds
/// it for all of them.
fn sendings_about(
    alloc: Global,
    journal: &Journal,
    answers: &[AcceptedAt],
) -> Result<Sendings, NoMemory>
    requires world { World (group_in journal.now) (run_in journal.now) }
    requires accepted { AllByRecursion (IsAccepted journal.now) answers.now }
    ensures { IfOk result (λ sendings. AllByRecursion (IsKnown journal.now sendings.kept.entries) answers.now) }
{
    let wanted = requests_of(alloc, answers)?;
    sendings_in(alloc, &wanted, journal)
}

/// These answers, each with its source, if it has one.
fn with_sources(
    alloc: Global,
    sendings: &Sendings,
    journal: &Journal,
    answers: &[AcceptedAt],
) -> Result<Vec<Traced>, NoMemory>
    requires accepted { AllByRecursion (IsAccepted journal.now) answers.now }
    requires sources { AllByRecursion (IsKnown journal.now sendings.now.kept.entries) answers.now }
    ensures { IfOk result (λ found. found.items ≡ all_traced journal.now answers.now) }
{
    let mut found = Vec::new(alloc);
    for answer in answers {
        add_traced(&mut found, sendings, journal, answer)?;
    }
    Ok(found)
}

/// These answers, each with where it comes from.
pub fn trace(
    alloc: Global,
    journal: &Journal,
    answers: &[AcceptedAt],
) -> Result<Vec<Traced>, NoMemory>
    requires world { World (group_in journal.now) (run_in journal.now) }
    requires accepted { AllByRecursion (IsAccepted journal.now) answers.now }
    ensures { IfOk result (λ found. found.items ≡ all_traced journal.now answers.now) }
{
    if answers.is_empty() {
        return Ok(Vec::new(alloc));
    }
    let sendings = sendings_about(alloc, journal, answers)?;
    with_sources(alloc, &sendings, journal, answers)
}
