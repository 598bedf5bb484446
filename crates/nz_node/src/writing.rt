//! Writing what a step sends.
ghost use Rattle.std.specs.Prelude.{◌≡◌, ◌≤◌, OnOk, OnErr, IfOk};
ghost use Rattle.nz_edge.specs.Faults.{Rose};
ghost use Rattle.nz_edge.specs.Exposed.{Gains};
ghost use Rattle.nz_node.specs.Nodes as words;
ghost use Rattle.nz_node.specs.Nodes.{TakesPrefix};

use nz_base::NoMemory;
use nz_edge::{Failed, Sink};
use nz_machine::Sends;
use std::alloc::Global;

/// The frames of what is sent, one after the other.
pub fn frames_of(alloc: Global, sends: &Sends) -> Result<Vec<u8>, NoMemory>
    ensures { IfOk result (λ bytes. bytes.items ≡ words.frames_of sends.now) }
{
    let mut bytes = Vec::new(alloc);
    for shared in sends.as_slice() {
        let frame = &shared.get().frame;
        bytes.extend_from_slice(frame.header())?;
        bytes.extend_from_slice(frame.body().as_slice())?;
    }
    Ok(bytes)
}

/// Hands the bytes to the sink, each time all that is left of them, and flushes it at the end.
#[tactic(auto, using(nz_edge::proofs::Exposed::gains_further))]
pub fn write_all<K: Sink>(sink: &mut K, bytes: &[u8]) -> Result<(), Failed>
    ensures whole { OnOk result (Gains (K.taken sink.old) (K.taken sink.new) bytes.now) }
    ensures prefix { TakesPrefix (K.taken sink.old) (K.taken sink.new) bytes.now }
    ensures failed { OnErr result (Rose (K.faults sink.old) (K.faults sink.new)) }
    ensures counts { K.faults sink.old ≤ K.faults sink.new }
{
    let mut at = 0;
    while at < bytes.len() {
        let (_, rest) = bytes.split_at(at);
        at += sink.write(rest)?;
    }
    sink.flush()
}
