//! A core between a source of items and a sink of frames.

ghost use Rattle.std.specs.Prelude.{◌≡◌, ◌≤◌, [], ◌∷◌, true, false, None, Some, Ok, IfOk, IfSome, OnOk, OnErr};
ghost use Rattle.nz_edge.specs.Exposed.{Gains};
ghost use Rattle.nz_lane.specs.Streams.{ahead};
ghost use Rattle.nz_machine.specs.rules.State.{Group};
ghost use Rattle.nz_machine.specs.rules.Step.{node_run};
ghost use Rattle.nz_lane.specs.declared.item.Item.{Item as ItemModel};
ghost use Rattle.nz_node.specs.Nodes.{frames_of, IsNext, Took, Began, BeganStep, Served};

use super::events::event_of;
use super::writing::{frames_of, write_all};
use nz_base::NoMemory;
use nz_edge::{Failed, Sink, Source};
use nz_lane::{LaneReader, Stop};
use nz_machine::{Core, Event};
use std::alloc::Global;

/// Why a node stops before the end of its stream.
#[derive(Clone, Copy, Debug, PartialEq, Eq)]
pub enum NodeStop {
    /// There is no next item, for this reason.
    Input(Stop),
    /// The sink failed.
    Output,
    NoMemory,
    /// A request came, and the actor is no client.
    Request,
    /// It has taken 2^64 - 1 items.
    Full,
}

impl From<Stop> for NodeStop {
    fn from(stop: Stop) -> NodeStop {
        NodeStop::Input(stop)
    }
}

impl From<Failed> for NodeStop {
    fn from(_: Failed) -> NodeStop {
        NodeStop::Output
    }
}

impl From<NoMemory> for NodeStop {
    fn from(_: NoMemory) -> NodeStop {
        NodeStop::NoMemory
    }
}

/// What happens next, or nothing at the end of the stream.
fn next_event<S: Source>(
    alloc: Global,
    reader: &mut LaneReader,
    source: &mut S,
) -> Result<Option<Event>, NodeStop>
    ensures next { IfOk result (λ found. IfSome found (IsNext (ahead reader.old (S.left source.old)) (ahead reader.new (S.left source.new)))) }
    ensures end { IfOk result (λ found. found ≡ None → IfSome (ahead reader.old (S.left source.old)) (λ bytes. bytes ≡ [])) }
{
    let Some(item) = reader.next(source)? else {
        return Ok(None);
    };
    match event_of(alloc, item)? {
        Some(event) => Ok(Some(event)),
        None => Err(NodeStop::Request),
    }
}

/// The core takes the event, and what it sends is written.
fn answer<C: Core, K: Sink>(
    alloc: Global,
    core: &mut C,
    event: &Event,
    sink: &mut K,
) -> Result<(), NodeStop>
    requires { C.live core.old ≡ true }
    ensures live { OnOk result (C.live core.new ≡ true) }
    ensures fits { (g : Group) → C.fits core.old g → C.fits core.new g }
    ensures node { OnOk result ((g : Group) → C.fits core.old g → C.meaning core.new ≡ (node_run g (C.meaning core.old) event.now).0) }
    ensures output { OnOk result ((g : Group) → C.fits core.old g
        → Gains (K.taken sink.old) (K.taken sink.new) (frames_of (node_run g (C.meaning core.old) event.now).1)) }
    ensures began { BeganStep (C.fits core.old) (C.meaning core.old) event.now (K.taken sink.old) (K.taken sink.new) }
{
    let sends = core.step(event)?;
    let bytes = frames_of(alloc, &sends)?;
    write_all(sink, &bytes)?;
    Ok(())
}

/// Takes the next item and writes what the machine sends on it. It is false at the end of the stream.
pub fn turn<C: Core, S: Source, K: Sink>(
    alloc: Global,
    core: &mut C,
    reader: &mut LaneReader,
    source: &mut S,
    sink: &mut K,
) -> Result<bool, NodeStop>
    requires { C.live core.old ≡ true }
    ensures live { OnOk result (C.live core.new ≡ true) }
    ensures fits { (g : Group) → C.fits core.old g → C.fits core.new g }
    ensures took { result ≡ Ok true → (item : ItemModel) × Took (C.fits core.old) (C.meaning core.old) (C.meaning core.new)
        (ahead reader.old (S.left source.old)) (ahead reader.new (S.left source.new)) (K.taken sink.old) (K.taken sink.new) (item ∷ []) }
    ensures end { result ≡ Ok false → IfSome (ahead reader.old (S.left source.old)) (λ bytes. bytes ≡ []) }
    ensures still { result ≡ Ok false → Took (C.fits core.old) (C.meaning core.old) (C.meaning core.new)
        (ahead reader.old (S.left source.old)) (ahead reader.old (S.left source.old)) (K.taken sink.old) (K.taken sink.new) [] }
    ensures began { OnErr result (Began (C.fits core.old) (C.meaning core.old) (ahead reader.old (S.left source.old)) (K.taken sink.old) (K.taken sink.new)) }
{
    match next_event(alloc, reader, source)? {
        None => Ok(false),
        Some(event) => {
            answer(alloc, core, &event, sink)?;
            Ok(true)
        }
    }
}

/// Takes the whole stream, item by item.
pub fn serve<C: Core, S: Source, K: Sink>(
    alloc: Global,
    core: &mut C,
    source: &mut S,
    sink: &mut K,
) -> Result<(), NodeStop>
    requires { C.live core.old ≡ true }

    // At the end of the stream the frames are written that the machine sends on all of it, and nothing else.
    ensures served { OnOk result (Served (C.fits core.old) (C.meaning core.old) (C.meaning core.new) (S.left source.old) (K.taken sink.old) (K.taken sink.new)) }

    // Wherever the node stops, what was written is a prefix of what the machine sends on items that were next.
    ensures began { OnErr result (Began (C.fits core.old) (C.meaning core.old) (S.left source.old) (K.taken sink.old) (K.taken sink.new)) }
{
    let mut reader = LaneReader::new(alloc);
    for _ in 0..u64::MAX {
        if !turn(alloc, core, &mut reader, source, sink)? {
            return Ok(());
        }
    }
    Err(NodeStop::Full)
}
