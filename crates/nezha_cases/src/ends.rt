//! Calls of the program over ends in memory.
ghost use Rattle.std.specs.Prelude.{◌<◌};

use nz_base::{Blob, NoMemory};
use nz_edge::{CallList, Gate, MemSink, MemSource, OpenGate};
use nz_machine::Journal;
use nz_top::{Keeping, Outcome, Status, Unkept, Words, nezha};
use std::alloc::Global;
use std::sync::Wait;
use std::thread::Threads;

/// How many bytes of output are taken, if no test wants fewer.
const ROOM: usize = 4 << 20;

/// The ends of a call, and which call of each fails.
#[derive(Clone, Copy)]
pub struct Ends {
    /// How many bytes a read gives and a write takes at most.
    pub piece: usize,
    /// From 1; 0 for none.
    pub failing_read: u32,
    /// Writes and flushes are numbered together.
    pub failing_write: u32,
    /// How many bytes of output are taken.
    pub room: usize,
}

impl Ends {
    /// Nothing fails.
    pub fn new() -> Ends
        ensures { 0 < result.piece }
    {
        Ends {
            piece: 65_536,
            failing_read: 0,
            failing_write: 0,
            room: ROOM,
        }
    }

    /// They move one byte at a time.
    pub fn byte_by_byte() -> Ends
        ensures { 0 < result.piece }
    {
        Ends {
            piece: 1,
            ..Ends::new()
        }
    }
}

/// How a call ended.
#[derive(Drop)]
pub struct Ended {
    pub status: Status,
    pub output: Vec<u8>,
}

/// Makes the call with these words on the input, which keeps this of a run. Its workers pass the gate.
fn end_keeping<K: Keeping, R: Threads + Wait + Sync, G: Gate + Sync>(
    rt: &R,
    alloc: Global,
    words: &[&str],
    input: &[u8],
    ends: Ends,
    gate: &G,
) -> Result<Ended, NoMemory>
    requires { 0 < ends.piece }
{
    let words = Words::from_list(alloc, words)?;
    let input = Blob::from_slice(alloc, input)?;
    let failing_reads = CallList::from_slice(alloc, &[ends.failing_read])?;
    let failing_writes = CallList::from_slice(alloc, &[ends.failing_write])?;
    let mut source = MemSource::new(input, ends.piece, failing_reads);
    let mut out = MemSink::new(alloc, ends.room, ends.piece, failing_writes)?;
    let outcome: Outcome<K> = nezha(rt, alloc, &words, &mut source, &mut out, gate);
    Ok(Ended {
        status: outcome.status,
        output: out.bytes().to_vec(alloc)?,
    })
}

/// Makes the call as the program does, which keeps no journal. Its workers pass the gate.
pub fn end_through<R: Threads + Wait + Sync, G: Gate + Sync>(
    rt: &R,
    alloc: Global,
    words: &[&str],
    input: &[u8],
    ends: Ends,
    gate: &G,
) -> Result<Ended, NoMemory>
    requires { 0 < ends.piece }
{
    end_keeping::<Unkept, R, G>(rt, alloc, words, input, ends, gate)
}

/// Makes the call over these ends, twice: as the program does, and with the journal kept. Where the second ends otherwise,
/// the output says so.
pub fn end_over<R: Threads + Wait + Sync>(
    rt: &R,
    alloc: Global,
    words: &[&str],
    input: &[u8],
    ends: Ends,
) -> Result<Ended, NoMemory>
    requires { 0 < ends.piece }
{
    let mut ended = end_through(rt, alloc, words, input, ends, &OpenGate::new())?;
    let kept = end_keeping::<Journal, R, OpenGate>(
        rt,
        alloc,
        words,
        input,
        ends,
        &OpenGate::new(),
    )?;
    if kept.status != ended.status || kept.output.as_slice() != ended.output.as_slice() {
        ended
            .output
            .extend_from_slice(b"not so where the journal is kept\n")?;
    }
    Ok(ended)
}

/// Makes the call, and nothing fails.
pub fn end_of<R: Threads + Wait + Sync>(
    rt: &R,
    alloc: Global,
    words: &[&str],
    input: &[u8],
) -> Result<Ended, NoMemory> {
    end_over(rt, alloc, words, input, Ends::new())
}
