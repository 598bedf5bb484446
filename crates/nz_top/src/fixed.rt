//! Commands whose words alone decide what is printed.
ghost use Rattle.std.specs.Prelude.{◌≤◌, ◌≢◌};
ghost use Rattle.nz_base.specs.declared.limits.TheConstants.{MAX_REQUESTS};
ghost use Rattle.nz_script.specs.Draws.{scenario_of_seed};
ghost use Rattle.nz_script.specs.Texts.{text_of};
ghost use Rattle.nz_top.specs.declared.status.Status.TheVariants as status;
ghost use Rattle.nz_top.specs.Calls.{IsWritten};

use crate::output::write_all;
use crate::status::Status;
use nz_edge::Sink;
use nz_script::{generate, print};
use std::alloc::Global;

/// Writes the bytes.
pub fn write_fixed<O: Sink>(out: &mut O, bytes: &[u8]) -> Status
    ensures written { IsWritten bytes.now result (O.taken out.old) (O.taken out.new) (O.faults out.old) (O.faults out.new) }
    ensures memory { result ≢ status.NoMemory }
    ensures counts { O.faults out.old ≤ O.faults out.new }
{
    match write_all(out, bytes) {
        Ok(()) => Status::Done,
        Err(_) => Status::WriteFault,
    }
}

/// Writes the text of the scenario that the seed draws, with this many requests.
pub fn write_drawn<O: Sink>(alloc: Global, seed: u64, count: u32, out: &mut O) -> Status
    requires some { 1 ≤ count }
    requires few { count ≤ MAX_REQUESTS }
    ensures written { IsWritten (text_of (scenario_of_seed seed count)) result (O.taken out.old) (O.taken out.new) (O.faults out.old) (O.faults out.new) }
    ensures counts { O.faults out.old ≤ O.faults out.new }
{
    let Ok(scenario) = generate(alloc, seed, count) else {
        return Status::NoMemory;
    };
    let Ok(text) = print(alloc, &scenario) else {
        return Status::NoMemory;
    };
    write_fixed(out, text.as_slice())
}
