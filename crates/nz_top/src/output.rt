//! Writing the output.
ghost use Rattle.std.specs.Prelude.{◌≤◌, OnOk, OnErr};
ghost use Rattle.nz_edge.specs.Faults.{Rose};
ghost use Rattle.nz_edge.specs.Exposed.{Gains};
ghost use Rattle.nz_top.specs.Bytes.{TakesPrefix};

use nz_edge::{Failed, Sink};

/// Hands the bytes to the sink, each time all that is left of them, and flushes it at the end.
#[tactic(auto, using(nz_edge::proofs::Exposed::gains_further))]
pub fn write_all<O: Sink>(out: &mut O, bytes: &[u8]) -> Result<(), Failed>
    ensures whole { OnOk result (Gains (O.taken out.old) (O.taken out.new) bytes.now) }
    ensures prefix { TakesPrefix (O.taken out.old) (O.taken out.new) bytes.now }
    ensures failed { OnErr result (Rose (O.faults out.old) (O.faults out.new)) }
    ensures counts { O.faults out.old ≤ O.faults out.new }
{
    let mut at = 0;
    while at < bytes.len() {
        let (_, rest) = bytes.split_at(at);
        at += out.write(rest)?;
    }
    out.flush()
}
