//! The lines of tenures.
ghost use Rattle.std.specs.Prelude.{◌≡◌, ◌++◌, IfOk, OnOk};
ghost use Rattle.nz_locks.specs.Tenures.{end_text, places_text, hold_line, hold_lines};

use crate::holding::{Tenure, tenures};
use nz_base::{Blob, NoMemory};
use nz_machine::History;
use nz_script::{put, put_number};
use std::alloc::Global;

fn put_end(out: &mut Vec<u8>, to: Option<u32>) -> Result<(), NoMemory>
    ensures { OnOk result (out.new.items ≡ out.old.items ++ end_text to) }
{
    match to {
        Some(place) => {
            put(out, b" ")?;
            put_number(out, u64::from(place))
        }
        None => put(out, b" -"),
    }
}

fn put_places(out: &mut Vec<u8>, tenure: &Tenure) -> Result<(), NoMemory>
    ensures { OnOk result (out.new.items ≡ out.old.items ++ places_text tenure.now) }
{
    put(out, b" ")?;
    put_number(out, u64::from(tenure.from))?;
    put_end(out, tenure.to)
}

fn put_tenure(out: &mut Vec<u8>, tenure: &Tenure) -> Result<(), NoMemory>
    ensures { OnOk result (out.new.items ≡ out.old.items ++ hold_line tenure.now) }
{
    put(out, b"hold ")?;
    put(out, tenure.name.as_slice())?;
    put(out, b" c")?;
    put_number(out, u64::from(tenure.client))?;
    put_places(out, tenure)?;
    put(out, b"\n")
}

/// A line `hold NAME cK FROM TO` for each tenure of the history, TO being `-` where it does not end.
pub fn tenure_lines(alloc: Global, history: &History) -> Result<Blob, NoMemory>
    ensures { IfOk result (λ bytes. bytes ≡ hold_lines history.now) }
{
    let tenures = tenures(alloc, history)?;
    let mut out = Vec::new(alloc);
    for tenure in tenures.as_slice() {
        put_tenure(&mut out, tenure)?;
    }
    Ok(Blob::from_vec(out))
}
