//! The entries of the history of a text, one after another.

ghost use Rattle.std.specs.Prelude.{◌≡◌, ◌+◌, ◌<◌, ◌^◌, ◌==◌, ◌&&◌, List, [], length, take, slice_get, Some, OnOk, IfOk};
ghost use Rattle.std.specs.Option.{option_map};
ghost use Rattle.nz_machine.specs.rules.Quorums.{answer_eq};
ghost use Rattle.indexmap.specs.IndexMap.{get};
ghost use Rattle.nz_base.specs.Key.{id_eq};
ghost use Rattle.nz_machine.specs.declared.journal.Executed.{Executed as ExecutedModel};
ghost use Rattle.nz_store.specs.Reading.{command_owned};
ghost use Rattle.nz_store.specs.Sequence.{apply, apply_bytes, store_after, value_answer};
ghost use Rattle.nz_check.specs.Checked.{first_line, whys, at_why, lacks_open, commands_of};
ghost use Rattle.nz_check.specs.Noting.{AreFirstPlaces, AreNoted, is_sent_at};
ghost use Rattle.nz_check.specs.Applying.{IsApplied};

use super::events::{Noted, is_same_answer};
use super::places::{Places, place_of};
use super::verdict::{Verdict, Why};
use nz_base::NoMemory;
use nz_machine::{ClientEvent, Executed};
use nz_store::{Answer, CommandRef, Store, command_in};
use nz_text::Printed;
use std::alloc::Global;

/// Whether the event at this place sends the command.
fn sends_command(events: &[ClientEvent], place: u32, command: &[u8]) -> bool
    ensures { result ≡ is_sent_at events.now place command.now }
{
    match events.get(place as usize) {
        Some(ClientEvent::Sent { command: sent, .. }) => sent.as_slice() == command,
        _ => false,
    }
}

/// Whether no entry is above the place, and open lines are missing.
fn lacks_above(lacks: bool, place: u32) -> bool
    ensures { result ≡ ((place == 0) && lacks) }
{
    place == 0 && lacks
}

/// Whether the answer is that to a read which finds this value.
fn is_read_answer(value: Option<&[u8]>, answer: &Answer) -> bool
    ensures { result ≡ answer_eq (value_answer (option_map (λ v. v.now) value.entry)) answer.now }
{
    match (value, answer) {
        (Some(value), Answer::Value(other)) => value == other.as_slice(),
        (None, Answer::Absent) => true,
        _ => false,
    }
}

/// Whether the store answers the command so. The command is applied. What a `get` reads is compared in place.
#[tactic(auto, unfolding(nz_store::specs::Sequence::apply))]
fn answers_command(
    store: &mut Store,
    command: CommandRef<'_>,
    answer: &Answer,
) -> Result<bool, NoMemory>
    ensures store { OnOk result (store.new ≡ (apply store.old (command_owned command.entry)).0) }
    ensures same { IfOk result (λ same. same ≡ answer_eq (apply store.old (command_owned command.entry)).1 answer.now) }
{
    if let CommandRef::Get { key } = command {
        return Ok(is_read_answer(store.get(key), answer));
    }
    match store.apply_lent(command) {
        Ok(given) => Ok(is_same_answer(&given, answer)),
        Err(_) => Err(NoMemory),
    }
}

/// Whether the store answers the entry's command as the entry says. The command is applied.
#[tactic(auto, unfolding(nz_store::specs::Sequence::apply_bytes))]
fn answers(store: &mut Store, entry: &Executed) -> Result<bool, NoMemory>
    ensures store { OnOk result (store.new ≡ (apply_bytes store.old entry.now.command).0) }
    ensures same { IfOk result (λ same. same ≡ answer_eq (apply_bytes store.old entry.now.command).1 entry.now.answer) }
{
    match command_in(entry.command.as_slice()) {
        Some(command) => answers_command(store, command, &entry.answer),
        // Bytes that are no command change nothing.
        None => Ok(is_same_answer(&Answer::Absent, &entry.answer)),
    }
}

/// What is wrong with the entry at this place, or applies its command. `lacks` says that open lines are missing.
fn take(
    store: &mut Store,
    printed: &Printed,
    places: &Places,
    noted: &Noted,
    lacks: bool,
    place: u32,
    entry: &Executed,
) -> Result<Option<Why>, NoMemory>
    requires places { AreFirstPlaces printed.now.history (get id_eq places.now) }
    requires noted { AreNoted printed.now.history printed.now.events noted.now }
    requires lacks { lacks ≡ lacks_open printed.now }
    requires entry { slice_get printed.now.history place ≡ Some entry.now }
    requires store { store.old ≡ store_after (commands_of (take place printed.now.history)) }
    ensures { IfOk result (λ why. IsApplied printed.now place entry.now why store.new) }
{
    let is_first = place_of(places, entry.id) == Some(place);
    if !is_first {
        return Ok(Some(Why::Repeat));
    }
    let Some(sent) = noted.of(entry.id) else {
        return Ok(Some(Why::Unsent));
    };
    if !sends_command(
        printed.events.as_slice(),
        sent.place,
        entry.command.as_slice(),
    ) {
        return Ok(Some(Why::Unsent));
    }
    if lacks_above(lacks, place) {
        return Ok(Some(Why::Open));
    }
    if place < sent.reach {
        return Ok(Some(Why::Order));
    }
    let same = answers(store, entry)?;
    if !same {
        return Ok(Some(Why::Answer));
    }
    Ok(None)
}

/// The first entry with which something is wrong.
pub fn check_entries(
    alloc: Global,
    printed: &Printed,
    places: &Places,
    noted: &Noted,
    lacks: bool,
) -> Result<Verdict, NoMemory>
    requires few { length printed.now.events + length printed.now.unanswered + length printed.now.history + 1 < 2 ^ 32 }
    requires places { AreFirstPlaces printed.now.history (get id_eq places.now) }
    requires noted { AreNoted printed.now.history printed.now.events noted.now }
    requires lacks { lacks ≡ lacks_open printed.now }
    ensures { IfOk result (λ verdict. verdict
        ≡ first_line (length printed.now.events + length printed.now.unanswered + 1) (whys (at_why printed.now) [] printed.now.history)) }
{
    let above = printed.events.len() + printed.unanswered.len();
    let mut store = Store::new(alloc);
    let history = printed.history.as_slice();
    let mut place = 0;
    for entry in history {
        if let Some(why) = take(&mut store, printed, places, noted, lacks, place, entry)? {
            return Ok(Verdict::No {
                line: above + place + 1,
                why,
            });
        }
        place += 1;
    }
    Ok(Verdict::Yes)
}
