//! The events of a text, one after another.

ghost use Rattle.std.specs.Prelude.{◌≡◌, ◌+◌, ◌<◌, ◌^◌, ℕ, List, [], length, slice_get, Some, if◌then◌else◌, OnOk, IfOk};
ghost use Rattle.std.specs.Option.{option_eq, option_map};
ghost use Rattle.indexmap.specs.IndexMap.{get};
ghost use Rattle.nz_base.specs.Key.{id_eq};
ghost use Rattle.nz_base.specs.declared.key.Id.{Id as IdModel};
ghost use Rattle.nz_machine.specs.rules.Quorums.{answer_eq};
ghost use Rattle.nz_machine.specs.declared.client_event.ClientEvent.{ClientEvent as EventModel};
ghost use Rattle.nz_machine.specs.declared.client_event.ClientEvent.TheVariants.{Sent as SentModel, Accepted as AcceptedModel};
ghost use Rattle.nz_text.specs.declared.printed.Printed.{Printed as PrintedModel};
ghost use Rattle.nz_msg.specs.declared.message.Path.{Path as PathModel};
ghost use Rattle.nz_check.specs.Checked.{first_line, whys, event_why};
ghost use Rattle.nz_check.specs.Noting.{AreFirstPlaces, AreNoted, IsTaken};
ghost use Rattle.nz_check.specs.declared.verdict.Verdict.TheVariants.{Yes as SaysYes};

use super::places::{Places, place_of};
use super::verdict::{Verdict, Why};
use indexmap::IndexMap;
use nz_base::{Id, NoMemory};
use nz_machine::{ClientEvent, Executed};
use nz_store::Answer;
use nz_text::Printed;
use std::alloc::Global;

/// What is noted of a request that was sent.
#[derive(Clone, Copy, Debug)]
pub struct SentRequest {
    /// The place of its event, from 0.
    pub place: u32,
    /// How many entries of the history it takes to have all that was accepted before.
    pub reach: u32,
    pub accepted: bool,
}

/// What is noted of the events so far.
#[derive(Drop)]
pub struct Noted {
    pub sent: IndexMap<Id, SentRequest>,
    /// How many entries of the history it takes to have all that was accepted so far.
    pub reach: u32,
}

/// Whether two answers are the same.
pub fn is_same_answer(one: &Answer, other: &Answer) -> bool
    ensures { result ≡ answer_eq one.now other.now }
{
    match (one, other) {
        (Answer::Done, Answer::Done) => true,
        (Answer::Value(x), Answer::Value(y)) => x.as_slice() == y.as_slice(),
        (Answer::Absent, Answer::Absent) => true,
        (Answer::Differs, Answer::Differs) => true,
        _ => false,
    }
}

/// Whether the entry at the place has the answer.
fn has_answer(history: &[Executed], place: u32, answer: &Answer) -> bool
    ensures { result ≡ option_eq answer_eq (option_map (λ x. x.answer) (slice_get history.now place)) (Some answer.now) }
{
    match history.get(place as usize) {
        Some(entry) => is_same_answer(&entry.answer, answer),
        None => false,
    }
}

impl Noted {
    pub fn new(alloc: Global) -> Noted
        ensures { (p : PrintedModel) → AreNoted p.history [] result }
    {
        Noted {
            sent: IndexMap::new(alloc),
            reach: 0,
        }
    }

    /// What is noted of the request.
    pub fn of(&self, id: Id) -> Option<SentRequest>
        ensures { result ≡ get id_eq self.now.sent id }
    {
        self.sent.get(&id).copied()
    }

    fn note(&mut self, id: Id, sent: SentRequest) -> Result<(), NoMemory>
        ensures each { OnOk result ((i : IdModel) → get id_eq self.new.sent i ≡ (if id_eq id i then Some sent else get id_eq self.old.sent i)) }
        ensures reach { self.new.reach ≡ self.old.reach }
    {
        self.sent.insert(id, sent)?;
        Ok(())
    }

    fn take_send(&mut self, id: Id, place: u32) -> Result<Option<Why>, NoMemory>
        ensures { (p : PrintedModel) (above : List EventModel) (command : List ℕ) → AreNoted p.history above self.old → length above ≡ place
            → IfOk result (λ why. IsTaken p above (SentModel id command) why self.new) }
    {
        if self.of(id).is_some() {
            return Ok(Some(Why::Repeat));
        }
        let reach = self.reach;
        self.note(
            id,
            SentRequest {
                place,
                reach,
                accepted: false,
            },
        )?;
        Ok(None)
    }

    fn take_accept(
        &mut self,
        printed: &Printed,
        places: &Places,
        id: Id,
        answer: &Answer,
    ) -> Result<Option<Why>, NoMemory>
        requires few { length printed.now.history + 1 < 2 ^ 32 }
        requires places { AreFirstPlaces printed.now.history (get id_eq places.now) }
        ensures { (above : List EventModel) (path : PathModel) → AreNoted printed.now.history above self.old
            → IfOk result (λ why. IsTaken printed.now above (AcceptedModel id answer.now path) why self.new) }
    {
        let Some(sent) = self.of(id) else {
            return Ok(Some(Why::Unsent));
        };
        if sent.accepted {
            return Ok(Some(Why::Repeat));
        }
        let Some(place) = place_of(places, id) else {
            return Ok(Some(Why::Missing));
        };
        if !has_answer(printed.history.as_slice(), place, answer) {
            return Ok(Some(Why::Answer));
        }
        self.note(
            id,
            SentRequest {
                place: sent.place,
                reach: sent.reach,
                accepted: true,
            },
        )?;
        self.reach = self.reach.max(place + 1);
        Ok(None)
    }

    /// What is wrong with the event, or notes it.
    fn take(
        &mut self,
        printed: &Printed,
        places: &Places,
        place: u32,
        event: &ClientEvent,
    ) -> Result<Option<Why>, NoMemory>
        requires few { length printed.now.history + 1 < 2 ^ 32 }
        requires places { AreFirstPlaces printed.now.history (get id_eq places.now) }
        ensures { (above : List EventModel) → AreNoted printed.now.history above self.old → length above ≡ place
            → IfOk result (λ why. IsTaken printed.now above event.now why self.new) }
    {
        match event {
            ClientEvent::Sent { id, .. } => self.take_send(*id, place),
            ClientEvent::Accepted { id, answer, .. } => self.take_accept(
                printed, places, *id, answer,
            ),
        }
    }
}

/// The first event with which something is wrong, or notes all.
pub fn check_events(
    printed: &Printed,
    places: &Places,
    noted: &mut Noted,
) -> Result<Verdict, NoMemory>
    requires few { length printed.now.events + length printed.now.history + 1 < 2 ^ 32 }
    requires places { AreFirstPlaces printed.now.history (get id_eq places.now) }
    requires none { AreNoted printed.now.history [] noted.old }
    ensures verdict { IfOk result (λ verdict. verdict ≡ first_line 1 (whys (event_why printed.now) [] printed.now.events)) }
    ensures noted { IfOk result (λ verdict. verdict ≡ SaysYes → AreNoted printed.now.history printed.now.events noted.new) }
{
    let events = printed.events.as_slice();
    let mut place = 0;
    for event in events {
        if let Some(why) = noted.take(printed, places, place, event)? {
            return Ok(Verdict::No {
                line: place + 1,
                why,
            });
        }
        place += 1;
    }
    Ok(Verdict::Yes)
}
