//! What becomes of each parcel of a run, and the lines that show it.

ghost use Rattle.std.specs.Prelude.{◌≡◌, ◌∷◌, ◌++◌, [], List, length, IfOk, OnOk, OnErr};
ghost use Rattle.std.specs.List.{flat_map};
ghost use Rattle.nz_base.specs.declared.scenario.Scenario.{Scenario as ScenarioModel};
ghost use Rattle.nz_msg.specs.Envelope.{decode_of};
ghost use Rattle.nz_machine.specs.declared.event.Parcel.{Parcel as ParcelModel};
ghost use Rattle.nz_machine.specs.runs.Schedule as schedule;
ghost use Rattle.nz_machine.specs.runs.Schedule.{kind_in_frame};
ghost use Rattle.nz_script.specs.Texts.{kind_text};
ghost use Rattle.nz_story.specs.Fields.{contents_text};
ghost use Rattle.nz_story.specs.Fates.{cut_text, delivery_text, fate_text, sending_text, sends_line, sends_lines};
ghost use Rattle.nz_story.specs.Passes.{deliveries_in, delivery_of, counts_of};

use super::deliveries::Delivery;
use super::fields::put_fields;
use super::passes::pass_all;
use nz_base::{NoMemory, Scenario};
use nz_machine::{Parcel, SharedParcel, kind_of};
use nz_msg::{DecodeRefusal, decode};
use nz_script::{name_of, put, put_actor, put_number};
use std::alloc::Global;
use std::marker::Model;

/// How many of the parcels that were sent each fault line names.
#[derive(Drop)]
pub struct Sent {
    alloc: Global,
    counts: Vec<u64>,
    /// Those of the parcel in hand.
    deliveries: Vec<Delivery>,
}

impl Model for Sent {
    ghost use Rattle.std.specs.Prelude.{List, ℕ};

    ghost Value = { List ℕ };

    ghost view = { λ s. s.counts.items };
}

fn put_kept(out: &mut Vec<u8>, kept: Option<u32>) -> Result<(), NoMemory>
    ensures { OnOk result (out.new.items ≡ out.old.items ++ cut_text kept) }
{
    match kept {
        None => Ok(()),
        Some(kept) => {
            put(out, b" cut ")?;
            put_number(out, u64::from(kept))
        }
    }
}

fn put_delivery(out: &mut Vec<u8>, delivery: &Delivery) -> Result<(), NoMemory>
    ensures { OnOk result (out.new.items ≡ out.old.items ++ delivery_text (delivery_of delivery.now)) }
{
    put(out, b" at ")?;
    put_number(out, delivery.tick)?;
    put_kept(out, delivery.kept)
}

fn put_each(out: &mut Vec<u8>, deliveries: &[Delivery]) -> Result<(), NoMemory>
    ensures { OnOk result (out.new.items ≡ out.old.items ++ flat_map delivery_text (deliveries_in deliveries.now)) }
{
    for delivery in deliveries {
        put_delivery(out, delivery)?;
    }
    Ok(())
}

fn put_fate(out: &mut Vec<u8>, deliveries: &[Delivery]) -> Result<(), NoMemory>
    ensures { OnOk result (out.new.items ≡ out.old.items ++ fate_text (deliveries_in deliveries.now)) }
{
    if deliveries.is_empty() {
        return put(out, b" lost");
    }
    put_each(out, deliveries)
}

fn put_kind(out: &mut Vec<u8>, kind: Option<u8>) -> Result<(), NoMemory>
    ensures { OnOk result (out.new.items ≡ out.old.items ++ kind_text kind) }
{
    match kind {
        None => Ok(()),
        Some(kind) => put(out, name_of(kind)),
    }
}

fn put_sending(out: &mut Vec<u8>, parcel: &Parcel, own: Option<u8>) -> Result<(), NoMemory>
    requires { own ≡ kind_in_frame parcel.now.frame }
    ensures { OnOk result (out.new.items ≡ out.old.items ++ sending_text parcel.now) }
{
    put(out, b"  sends ")?;
    put_kind(out, own)?;
    put(out, b" ")?;
    put_actor(out, parcel.to)
}

fn put_contents(alloc: Global, out: &mut Vec<u8>, parcel: &Parcel) -> Result<(), NoMemory>
    ensures { OnOk result (out.new.items ≡ out.old.items ++ contents_text (decode_of parcel.now.frame)) }
{
    match decode(alloc, &parcel.frame) {
        Ok(envelope) => {
            put(out, b":")?;
            put_fields(out, &envelope.message)
        }
        Err(DecodeRefusal::NoMemory) => Err(NoMemory),
        Err(_) => Ok(()),
    }
}

/// Counts a parcel that is sent in a tick, and writes its line.
fn put_parcel(
    alloc: Global,
    out: &mut Vec<u8>,
    scenario: &Scenario,
    tick: u32,
    parcel: &Parcel,
    counts: &mut [u64],
    deliveries: &mut Vec<Delivery>,
) -> Result<(), NoMemory>
    requires { length counts.old ≡ length scenario.now.faults }
    ensures counted { (earlier : List ParcelModel) → counts.old ≡ counts_of scenario.now.faults earlier
        → OnOk result (counts.new ≡ counts_of scenario.now.faults (earlier ++ parcel.now ∷ [])) }
    ensures written { (earlier : List ParcelModel) → counts.old ≡ counts_of scenario.now.faults earlier
        → OnOk result (out.new.items ≡ out.old.items ++ sends_line scenario.now tick earlier parcel.now) }
{
    let own = kind_of(&parcel.frame);
    deliveries.clear();
    deliveries.push(Delivery {
        tick: u64::from(tick) + 1,
        kept: None,
    })?;
    let faults = scenario.faults.as_slice();
    pass_all(faults, tick, parcel, own, counts, deliveries)?;
    put_sending(out, parcel, own)?;
    put_fate(out, deliveries.as_slice())?;
    put_contents(alloc, out, parcel)?;
    put(out, b"\n")
}

/// Counts parcels that are sent in a tick, in this order, and writes their lines.
fn put_parcels(
    alloc: Global,
    out: &mut Vec<u8>,
    scenario: &Scenario,
    tick: u32,
    sends: &[SharedParcel],
    counts: &mut [u64],
    deliveries: &mut Vec<Delivery>,
) -> Result<(), NoMemory>
    requires { length counts.old ≡ length scenario.now.faults }
    ensures counted { (earlier : List ParcelModel) → counts.old ≡ counts_of scenario.now.faults earlier
        → OnOk result (counts.new ≡ counts_of scenario.now.faults (earlier ++ sends.now)) }
    ensures written { (earlier : List ParcelModel) → counts.old ≡ counts_of scenario.now.faults earlier
        → OnOk result (out.new.items ≡ out.old.items ++ sends_lines scenario.now tick earlier sends.now) }
{
    for parcel in sends {
        put_parcel(alloc, out, scenario, tick, parcel.get(), counts, deliveries)?;
    }
    Ok(())
}

impl Sent {
    /// Nothing was sent.
    pub fn new(alloc: Global, scenario: &Scenario) -> Result<Sent, NoMemory>
        ensures { IfOk result (λ sent. sent ≡ counts_of scenario.now.faults []) }
    {
        Ok(Sent {
            alloc,
            counts: vec![in alloc; 0; scenario.faults.len() as usize]?,
            deliveries: Vec::new(alloc),
        })
    }

    /// Counts parcels that are sent in a tick, in this order, and writes their lines.
    pub fn put_sends(
        &mut self,
        out: &mut Vec<u8>,
        scenario: &Scenario,
        tick: u32,
        sends: &[SharedParcel],
    ) -> Result<(), NoMemory>
        requires { length self.old ≡ length scenario.now.faults }
        ensures counted { (earlier : List ParcelModel) → self.old ≡ counts_of scenario.now.faults earlier
            → OnOk result (self.new ≡ counts_of scenario.now.faults (earlier ++ sends.now)) }
        ensures written { (earlier : List ParcelModel) → self.old ≡ counts_of scenario.now.faults earlier
            → OnOk result (out.new.items ≡ out.old.items ++ sends_lines scenario.now tick earlier sends.now) }
    {
        put_parcels(
            self.alloc,
            out,
            scenario,
            tick,
            sends,
            self.counts.as_mut_slice(),
            &mut self.deliveries,
        )
    }
}
