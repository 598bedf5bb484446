//! Inputs that end early, and ends that fail at each of their calls.
ghost use Rattle.std.specs.Prelude.{◌<◌};

use crate::cases::Case;
use crate::ends::{Ends, end_of, end_over};
use crate::report::{Stop, print_ended};
use nz_base::NoMemory;
use std::alloc::Global;
use std::sync::Wait;
use std::thread::Threads;

/// What goes wrong in a call, after a number of bytes or of calls.
#[derive(Clone, Copy)]
pub enum Fault {
    /// The input ends.
    Prefix,
    /// A read of a byte fails. The last one finds that nothing is left.
    Read,
    /// A write of a byte fails, or the flush after the writes; after that nothing.
    Write,
    /// There is no more room for the output.
    Room,
}

impl Fault {
    /// How often it is tried: after each number of bytes or calls below this one.
    fn times(self, input: usize, output: usize) -> usize {
        match self {
            Fault::Prefix => input,
            Fault::Read => input.saturating_add(1),
            Fault::Write => output.saturating_add(2),
            Fault::Room => output,
        }
    }

    fn ends(self, number: usize) -> Ends
        ensures { 0 < result.piece }
    {
        let call = u32::try_from(number).unwrap_or(u32::MAX).saturating_add(1);
        match self {
            Fault::Prefix => Ends::new(),
            Fault::Read => Ends {
                failing_read: call,
                ..Ends::byte_by_byte()
            },
            Fault::Write => Ends {
                failing_write: call,
                ..Ends::byte_by_byte()
            },
            Fault::Room => Ends {
                room: number,
                ..Ends::new()
            },
        }
    }

    /// What is given of the input.
    fn given(self, input: &[u8], number: usize) -> &[u8] {
        match self {
            Fault::Prefix => &input[..number.min(input.len())],
            Fault::Read | Fault::Write | Fault::Room => input,
        }
    }

    fn title(self, alloc: Global, name: &str, number: usize) -> Result<String, NoMemory> {
        Ok(match self {
            Fault::Prefix => format!(in alloc; "{name}, the first {number} bytes")?,
            Fault::Read => format!(in alloc; "{name}, a fault after {number} bytes are read")?,
            Fault::Write => {
                format!(in alloc; "{name}, a fault after {number} calls of the sink")?
            }
            Fault::Room => format!(in alloc; "{name}, a room of {number} bytes")?,
        })
    }
}

/// The call with this fault after each number of bytes or calls.
pub fn play_faults<R: Print + Threads + Wait + Sync>(
    rt: &R,
    alloc: Global,
    case: &Case,
    words: &[&str],
    fault: Fault,
) -> Result<(), Stop> {
    let input = case.input.as_bytes();
    let whole = end_of(rt, alloc, words, input)?.output;
    for number in 0..fault.times(input.len(), whole.len()) {
        let ended = end_over(
            rt,
            alloc,
            words,
            fault.given(input, number),
            fault.ends(number),
        )?;
        let title = fault.title(alloc, case.name.as_str(), number)?;
        print_ended(rt, alloc, title.as_str(), &ended)?;
    }
    Ok(())
}
