//! The calendar of coming deliveries.
//!
//! A *course* is a sender, a receiver and a kind, whose parcels are counted together. Its *traffic* is their
//! number, and the fault lines that may strike them. A *day* is the items of one later tick. A kind is
//! *watched* if some fault line may strike a parcel of it.
//!
//! A parcel of a kind that is not watched goes into the next day, and is not counted. Another costs one look
//! at its traffic, one comparison with each block whose ends name its sender and receiver, and one with each
//! line that names its number. The lines of a course are found with its first parcel, which costs a look at
//! every line, and copied. A tick costs what is due in it. What the lines for crashes, restarts and alarms ask
//! is listed once, at the start, by ticks.

ghost use Rattle.std.specs.Prelude.{◌≡◌, ◌-◌, ◌<◌, ◌≤◌, ◌^◌, ◌∷◌, ◌++◌, [], ℕ, List, length, map, vec_capacity};
ghost use Rattle.std.specs.Prelude.{None, Some, IfOk, OnOk, OnErr};
ghost use Rattle.nz_base.specs.declared.scenario.Scenario.{Scenario as ScenarioModel};
ghost use Rattle.nz_machine.specs.declared.event.Parcel.{Parcel as ParcelModel};
ghost use Rattle.nz_machine.specs.runs.Schedule.{IsPlayable, Posted, posted_in, arrivals, kind_in_frame};
ghost use Rattle.nz_fabric.specs.schedule.Calendars.{course, Represents, IsCounted, IsOneMore, KeepsLines, counted_kind, no_dates, items_in};
ghost use Rattle.nz_fabric.specs.schedule.Calendars.{lines_at, next_number, traffic_of, traffic_on};
ghost use Rattle.nz_fabric.specs.schedule.Posting.{arrival_of, items_arriving, arrivals_by, arrivals_up_to, days_of, HasNumber, HasRoomFor, HasRooms};
ghost use Rattle.nz_fabric.specs.schedule.Posting.{AreKept, ArePlaced, AreShort, HasNumberIfWatched};

use crate::schedule::agenda::no_item;
use crate::schedule::course::{Course, Traffic, course_of, first_traffic};
use crate::schedule::deliveries::Delivery;
use crate::schedule::faults::deliveries_of;
use crate::schedule::kinds::Kinds;
use indexmap::IndexMap;
use nz_base::{FaultList, NoMemory, Scenario, TryCopy};
use nz_machine::{Event, Item, SharedParcel, kind_of};
use smallvec::SmallVec;
use std::alloc::Global;
use std::marker::Model;

/// A delivery that is to come in a tick.
#[derive(Drop)]
pub struct Arrival {
    pub tick: u32,
    pub item: Item,
}

/// What no calendar has: a place for a delivery without one.
impl Default for Arrival {
    fn default() -> Arrival {
        Arrival {
            tick: 0,
            item: no_item(),
        }
    }
}

/// The deliveries of one parcel that are to come. One takes no memory of its own.
type Arrivals = SmallVec<Arrival, 1>;

/// What is still to come of what was sent. A parcel of a kind that no fault line may strike costs no look at a line. Another
/// costs a look at each block that may strike parcels of its course and at each line that names it, and the first of a course
/// a look at every line. A tick costs what is due in it.
#[derive(Drop)]
pub struct Calendar {
    alloc: Global,
    parcels: u64,
    /// The kinds whose parcels are counted.
    watched: Kinds,
    courses: IndexMap<Course, Traffic>,
    /// The items of each tick, from tick 0 on.
    days: Vec<Vec<Item>>,
}

impl Model for Calendar {
    ghost use Rattle.nz_fabric.specs.schedule.Calendars.{Dates};
    ghost use Rattle.nz_fabric.specs.schedule.Posting.{days_of, AreShort};

    ghost Value = { Dates };

    ghost view = { λ c. record { parcels = c.parcels; watched = c.watched; courses = c.courses.entries; days = days_of c.days.items } };

    ghost invariant = { λ c. AreShort c.days.items };
}

/// The event of a delivery of a parcel, with its tick.
fn arrive(alloc: Global, parcel: &SharedParcel, delivery: Delivery) -> Result<Arrival, NoMemory>
    ensures { IfOk result (λ arrival. arrival ≡ arrival_of parcel.now delivery) }
{
    let copy = parcel.copy(alloc)?;
    let event = match delivery.kept {
        None => Event::Deliver(copy),
        Some(kept) => Event::Cut(kept, copy),
    };
    Ok(Arrival {
        tick: delivery.tick,
        item: Item {
            actor: parcel.get().to,
            event,
        },
    })
}

/// The deliveries of a parcel up to the last tick.
fn arrivals_of(
    alloc: Global,
    last: u32,
    parcel: &SharedParcel,
    deliveries: &[Delivery],
) -> Result<Arrivals, NoMemory>
    ensures { IfOk result (λ v. v.items ≡ arrivals_up_to last (map (arrival_of parcel.now) deliveries.now)) }
{
    let mut arrivals = Arrivals::new(alloc);
    for delivery in deliveries {
        if delivery.tick <= last {
            arrivals.push(arrive(alloc, parcel, *delivery)?)?;
        }
    }
    Ok(arrivals)
}

/// Opens days up to and with that of a tick.
fn open_days(alloc: Global, tick: u32, days: &mut Vec<Vec<Item>>) -> Result<(), NoMemory>
    ensures same { (t : ℕ) → items_in (days_of days.new.items) t ≡ items_in (days_of days.old.items) t }
    ensures rooms { (n t : ℕ) → HasRoomFor n days.old.items t → HasRoomFor n days.new.items t }
    ensures open { OnOk result (tick < length days.new.items) }
{
    'days: while days.len() <= tick as usize {
        days.push(Vec::new(alloc))?;
    }
    Ok(())
}

/// Makes room for this many items in the day of a tick.
fn reserve(
    alloc: Global,
    days: &mut Vec<Vec<Item>>,
    tick: u32,
    count: usize,
) -> Result<(), NoMemory>
    ensures same { (t : ℕ) → items_in (days_of days.new.items) t ≡ items_in (days_of days.old.items) t }
    ensures rooms { (n t : ℕ) → HasRoomFor n days.old.items t → HasRoomFor n days.new.items t }
    ensures room { OnOk result (HasRoomFor count days.new.items tick) }
{
    open_days(alloc, tick, days)?;
    let place = tick as usize;
    let room = (u32::MAX as usize + 1).saturating_sub(days[place].len());
    if room <= count {
        return Err(NoMemory);
    }
    days[place].reserve(count)?;
    Ok(())
}

/// Makes room in the day of each delivery, for all of them.
fn reserve_all(
    alloc: Global,
    days: &mut Vec<Vec<Item>>,
    arrivals: &[Arrival],
) -> Result<(), NoMemory>
    ensures same { (t : ℕ) → items_in (days_of days.new.items) t ≡ items_in (days_of days.old.items) t }
    ensures room { OnOk result (HasRooms (length arrivals.now) days.new.items arrivals.now) }
{
    for arrival in arrivals {
        reserve(alloc, days, arrival.tick, arrivals.len())?;
    }
    Ok(())
}

/// Each delivery goes last into its day.
fn place_all(days: &mut Vec<Vec<Item>>, arrivals: Arrivals)
    requires short { AreShort days.old.items }
    requires room { HasRooms (length arrivals.items) days.old.items arrivals.items }
    ensures short { AreShort days.new.items }
    ensures placed { (t : ℕ) → items_in (days_of days.new.items) t ≡ items_in (days_of days.old.items) t ++ items_arriving t arrivals.items }
{
    for arrival in arrivals {
        days[arrival.tick as usize].push_reserved(arrival.item);
    }
}

/// One item goes last into a day. A day has fewer than 2^32 of them.
fn push_short(day: &mut Vec<Item>, item: Item) -> Result<(), NoMemory>
    ensures short { length day.old.items < 2 ^ 32 → length day.new.items < 2 ^ 32 }
    ensures ok { OnOk result (day.new.items ≡ day.old.items ++ item ∷ []) }
    ensures err { OnErr result (day.new.items ≡ day.old.items) }
{
    if day.len() >= u32::MAX as usize {
        return Err(NoMemory);
    }
    day.push(item)?;
    Ok(())
}

/// One delivery goes last into its day.
fn place_one(alloc: Global, days: &mut Vec<Vec<Item>>, arrival: Arrival) -> Result<(), NoMemory>
    requires short { AreShort days.old.items }
    ensures short { AreShort days.new.items }
    ensures ok { OnOk result (ArePlaced days.old.items (arrival ∷ []) days.new.items) }
    ensures err { OnErr result (AreKept days.old.items days.new.items) }
{
    let Arrival { tick, item } = arrival;
    open_days(alloc, tick, days)?;
    push_short(&mut days[tick as usize], item)
}

/// A parcel that no fault line may strike comes once and whole, in the next tick.
fn place_whole(
    alloc: Global,
    days: &mut Vec<Vec<Item>>,
    last: u32,
    tick: u32,
    parcel: &SharedParcel,
) -> Result<(), NoMemory>
    requires short { AreShort days.old.items }
    ensures short { AreShort days.new.items }
    ensures ok { (earlier : List ParcelModel) → OnOk result (ArePlaced days.old.items (arrivals_by last tick earlier parcel.now []) days.new.items) }
    ensures err { OnErr result (AreKept days.old.items days.new.items) }
{
    let next = tick.saturating_add(1);
    if next > last {
        return Ok(());
    }
    let delivery = Delivery {
        tick: next,
        kept: None,
    };
    place_one(alloc, days, arrive(alloc, parcel, delivery)?)
}

/// The deliveries of a parcel up to the last tick, with room for all of them in their days.
fn reserve_arrivals(
    alloc: Global,
    days: &mut Vec<Vec<Item>>,
    last: u32,
    parcel: &SharedParcel,
    deliveries: &[Delivery],
) -> Result<Arrivals, NoMemory>
    ensures same { AreKept days.old.items days.new.items }
    ensures room { IfOk result (λ v. HasRooms (length v.items) days.new.items v.items) }
    ensures arrivals { IfOk result (λ v. v.items ≡ arrivals_up_to last (map (arrival_of parcel.now) deliveries.now)) }
{
    let arrivals = arrivals_of(alloc, last, parcel, deliveries)?;
    reserve_all(alloc, days, arrivals.as_slice())?;
    Ok(arrivals)
}

/// What comes of a parcel goes last into its days.
fn place_deliveries(
    alloc: Global,
    days: &mut Vec<Vec<Item>>,
    last: u32,
    parcel: &SharedParcel,
    deliveries: &[Delivery],
) -> Result<(), NoMemory>
    requires short { AreShort days.old.items }
    ensures short { AreShort days.new.items }
    ensures ok { OnOk result (ArePlaced days.old.items (arrivals_up_to last (map (arrival_of parcel.now) deliveries.now)) days.new.items) }
    ensures err { OnErr result (AreKept days.old.items days.new.items) }
{
    let arrivals = reserve_arrivals(alloc, days, last, parcel, deliveries)?;
    place_all(days, arrivals);
    Ok(())
}

/// What comes of the next parcel of a course of which something is kept goes last into its days.
fn place_on_course(
    alloc: Global,
    days: &mut Vec<Vec<Item>>,
    traffic: &Traffic,
    last: u32,
    tick: u32,
    parcel: &SharedParcel,
    kind: Option<u8>,
) -> Result<(), NoMemory>
    requires kind { kind ≡ kind_in_frame parcel.now.frame }
    requires short { AreShort days.old.items }
    ensures short { AreShort days.new.items }
    ensures ok { let number = next_number (Some traffic.now) in (earlier : List ParcelModel) → HasNumber earlier parcel.now number
        → OnOk result (ArePlaced days.old.items (arrivals_by last tick earlier parcel.now (lines_at number traffic.now)) days.new.items) }
    ensures err { OnErr result (AreKept days.old.items days.new.items) }
{
    let number = traffic.count.saturating_add(1);
    let blocks = traffic.blocks.as_slice();
    let named = traffic.named.under(number);
    if blocks.is_empty() && named.is_empty() {
        return place_whole(alloc, days, last, tick, parcel);
    }
    let deliveries = deliveries_of(alloc, blocks, named, tick, parcel.get(), kind, number)?;
    place_deliveries(alloc, days, last, parcel, deliveries.as_slice())
}

/// The first parcel of a course is counted, and what comes of it goes last into its days.
fn post_first(
    alloc: Global,
    courses: &mut IndexMap<Course, Traffic>,
    days: &mut Vec<Vec<Item>>,
    scenario: &Scenario,
    tick: u32,
    parcel: &SharedParcel,
    kind: u8,
) -> Result<(), NoMemory>
    requires kind { Some kind ≡ kind_in_frame parcel.now.frame }
    requires first { None ≡ traffic_on courses.old.entries (course parcel.now.from parcel.now.to kind) }
    requires short { AreShort days.old.items }
    ensures short { AreShort days.new.items }
    ensures counted { OnOk result (IsOneMore scenario.now.faults courses.old.entries courses.new.entries parcel.now kind) }
    ensures placed { (earlier : List ParcelModel) → HasNumber earlier parcel.now 1
        → OnOk result (ArePlaced days.old.items (arrivals_by scenario.now.ticks tick earlier parcel.now scenario.now.faults) days.new.items) }
    ensures err { OnErr result ((courses.new.entries ≡ courses.old.entries) × AreKept days.old.items days.new.items) }
{
    let sent = parcel.get();
    let traffic = first_traffic(alloc, scenario.faults.as_slice(), sent, kind)?;
    let blocks = traffic.blocks.as_slice();
    let named = traffic.named.under(1);
    let deliveries = deliveries_of(alloc, blocks, named, tick, sent, Some(kind), 1)?;
    let arrivals = reserve_arrivals(alloc, days, scenario.ticks, parcel, deliveries.as_slice())?;
    courses.insert(course_of(sent, kind), traffic)?;
    place_all(days, arrivals);
    Ok(())
}

/// What comes of a parcel of no kind, which is of no course, goes last into its days.
fn place_without_course(
    alloc: Global,
    days: &mut Vec<Vec<Item>>,
    scenario: &Scenario,
    tick: u32,
    parcel: &SharedParcel,
) -> Result<(), NoMemory>
    requires kind { None ≡ kind_in_frame parcel.now.frame }
    requires short { AreShort days.old.items }
    ensures short { AreShort days.new.items }
    ensures ok { (earlier : List ParcelModel) → HasNumber earlier parcel.now 1
        → OnOk result (ArePlaced days.old.items (arrivals_by scenario.now.ticks tick earlier parcel.now scenario.now.faults) days.new.items) }
    ensures err { OnErr result (AreKept days.old.items days.new.items) }
{
    let faults = scenario.faults.as_slice();
    let deliveries = deliveries_of(alloc, faults, &[], tick, parcel.get(), None, 1)?;
    place_deliveries(alloc, days, scenario.ticks, parcel, deliveries.as_slice())
}

/// A parcel of a kind that is watched is counted, and what comes of it goes last into its days. It takes one look at what is
/// kept of its course.
fn post_on_course(
    alloc: Global,
    courses: &mut IndexMap<Course, Traffic>,
    days: &mut Vec<Vec<Item>>,
    scenario: &Scenario,
    tick: u32,
    parcel: &SharedParcel,
    kind: u8,
) -> Result<(), NoMemory>
    requires kind { Some kind ≡ kind_in_frame parcel.now.frame }
    requires short { AreShort days.old.items }
    ensures short { AreShort days.new.items }
    ensures counted { KeepsLines scenario.now.faults courses.old.entries
        → OnOk result (IsOneMore scenario.now.faults courses.old.entries courses.new.entries parcel.now kind) }
    ensures placed { KeepsLines scenario.now.faults courses.old.entries
        → (earlier : List ParcelModel)
        → HasNumber earlier parcel.now (next_number (traffic_on courses.old.entries (course parcel.now.from parcel.now.to kind)))
        → OnOk result (ArePlaced days.old.items (arrivals_by scenario.now.ticks tick earlier parcel.now scenario.now.faults) days.new.items) }
    ensures err { OnErr result ((courses.new.entries ≡ courses.old.entries) × AreKept days.old.items days.new.items) }
{
    match courses.get_mut(&course_of(parcel.get(), kind)) {
        None => post_first(alloc, courses, days, scenario, tick, parcel, kind),
        Some(traffic) => {
            place_on_course(
                alloc,
                days,
                traffic,
                scenario.ticks,
                tick,
                parcel,
                Some(kind),
            )?;
            traffic.count = traffic.count.saturating_add(1);
            Ok(())
        }
    }
}

/// What comes of a parcel goes last into its days. It is counted, if its kind is watched.
fn post_parcel(
    alloc: Global,
    watched: &Kinds,
    courses: &mut IndexMap<Course, Traffic>,
    days: &mut Vec<Vec<Item>>,
    scenario: &Scenario,
    tick: u32,
    parcel: &SharedParcel,
) -> Result<(), NoMemory>
    requires short { AreShort days.old.items }
    ensures short { AreShort days.new.items }
    ensures counted { watched.now ≡ scenario.now.faults → KeepsLines scenario.now.faults courses.old.entries
        → OnOk result (IsCounted scenario.now.faults courses.old.entries courses.new.entries parcel.now
        (counted_kind scenario.now.faults (kind_in_frame parcel.now.frame))) }
    ensures placed { watched.now ≡ scenario.now.faults → KeepsLines scenario.now.faults courses.old.entries → (earlier : List ParcelModel)
        → HasNumberIfWatched scenario.now.faults earlier parcel.now
        (next_number (traffic_of courses.old.entries parcel.now (counted_kind scenario.now.faults (kind_in_frame parcel.now.frame))))
        → OnOk result (ArePlaced days.old.items (arrivals_by scenario.now.ticks tick earlier parcel.now scenario.now.faults) days.new.items) }
    ensures err { OnErr result ((courses.new.entries ≡ courses.old.entries) × AreKept days.old.items days.new.items) }
{
    let Some(kind) = kind_of(&parcel.get().frame) else {
        return place_without_course(alloc, days, scenario, tick, parcel);
    };
    if watched.contains(kind) {
        return post_on_course(alloc, courses, days, scenario, tick, parcel, kind);
    }
    place_whole(alloc, days, scenario.ticks, tick, parcel)
}

/// The memory of a day without items goes to the next day, if this one was not opened.
fn pass_on(alloc: Global, days: &mut Vec<Vec<Item>>, place: usize)
    requires within { place < length days.old.items }
    requires empty { items_in (days_of days.old.items) place ≡ [] }
    requires room { length days.old.items < vec_capacity days.old }
    ensures { AreKept days.old.items days.new.items }
{
    let memory = std::mem::replace(&mut days[place], Vec::new(alloc));
    if days.len() == place + 1 {
        days.push_reserved(memory);
    }
}

impl Calendar {
    /// No parcel was posted, and nothing is to come.
    pub fn new(alloc: Global, faults: &FaultList) -> Calendar
        ensures empty { result ≡ no_dates faults.now }
        ensures stands { (s : ScenarioModel) → s.faults ≡ faults.now → Represents s [] 0 result }
    {
        Calendar {
            alloc,
            parcels: 0,
            watched: Kinds::new(faults),
            courses: IndexMap::new(alloc),
            days: Vec::new(alloc),
        }
    }

    /// How many parcels were posted.
    pub fn parcels(&self) -> u64
        ensures { result ≡ self.now.parcels }
    {
        self.parcels
    }

    /// A parcel was sent in a tick. Its deliveries up to the last tick are to come.
    pub fn post(
        &mut self,
        scenario: &Scenario,
        tick: u32,
        parcel: &SharedParcel,
    ) -> Result<(), NoMemory>
        requires playable { IsPlayable scenario.now }
        requires few { self.old.parcels < 2 ^ 64 - 1 }
        ensures ok { (L : List Posted) (now : ℕ) → Represents scenario.now L now self.old
            → OnOk result (Represents scenario.now (L ++ posted_in tick parcel.now ∷ []) now self.new) }
        ensures err { (s : ScenarioModel) (L : List Posted) (now : ℕ) → Represents s L now self.old → OnErr result (Represents s L now self.new) }
    {
        post_parcel(
            self.alloc,
            &self.watched,
            &mut self.courses,
            &mut self.days,
            scenario,
            tick,
            parcel,
        )?;
        self.parcels += 1;
        Ok(())
    }

    /// How many items of a tick are to come.
    pub(crate) fn due(&self, tick: u32) -> usize
        ensures { result ≡ length (items_in self.now.days tick) }
    {
        match self.days.get(tick as usize) {
            Some(day) => day.len(),
            None => 0,
        }
    }

    /// The items of a tick go after others, and are to come no more. The next day, if it was not opened, is kept in their memory.
    pub fn move_to(&mut self, tick: u32, items: &mut Vec<Item>) -> Result<(), NoMemory>
        ensures items { OnOk result (items.new.items ≡ items.old.items ++ items_in self.old.days tick) }
        ensures stands { (s : ScenarioModel) (L : List Posted) (now : ℕ) → Represents s L now self.old → now < tick
            → OnOk result (Represents s L tick self.new) }
        ensures due { (s : ScenarioModel) (L : List Posted) (now : ℕ) → Represents s L now self.old → now < tick
            → tick ≤ s.ticks → OnOk result (items.new.items ≡ items.old.items ++ arrivals s tick [] L) }
        ensures err { OnErr result (self.new ≡ self.old) }
    {
        let place = tick as usize;
        if place >= self.days.len() {
            return Ok(());
        }
        self.days.reserve(1)?;
        items.append(&mut self.days[place])?;
        pass_on(self.alloc, &mut self.days, place);
        Ok(())
    }
}
