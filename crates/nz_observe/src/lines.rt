//! The lines of what is observed.

ghost use Rattle.std.specs.Prelude.{◌≡◌, ◌++◌, Some, OnOk};
ghost use Rattle.std.specs.Option.{option_map};
ghost use Rattle.nz_store.specs.Sequence.{value_answer};
ghost use Rattle.nz_text.specs.Text.{answer_text};
ghost use Rattle.nz_observe.specs.Observed.{nothing_printed, line, after_tick, sight_text};

use nz_base::{Blob, NoMemory};
use nz_script::{put, put_number};
use std::alloc::Global;
use std::marker::Model;
use std::mem;

/// The lines that are printed, and what the last one has after its tick.
#[derive(Drop)]
pub struct Lines {
    bytes: Vec<u8>,
    /// What the last line has after its tick.
    last: Vec<u8>,
    /// Whether there is a line.
    has_last: bool,
    /// What is seen at the end of a tick. Its memory is used again at the next.
    sight: Vec<u8>,
}

impl Model for Lines {
    ghost use Rattle.std.specs.Prelude.{if◌then◌else◌, Some, None};
    ghost use Rattle.nz_observe.specs.Observed.{Printed};

    ghost Value = { Printed };

    ghost view = { λ l. record { bytes = l.bytes.items; last = if l.has_last then Some l.last.items else None } };
}

/// Writes the answer to a read that finds this value, after a space. The value is not copied before.
fn put_read(out: &mut Vec<u8>, value: Option<&[u8]>) -> Result<(), NoMemory>
    ensures { OnOk result (out.new.items ≡ out.old.items ++ answer_text (value_answer (option_map (λ v. v.now) value.entry))) }
{
    match value {
        Some(value) => {
            put(out, b" value ")?;
            put(out, value)
        }
        None => put(out, b" absent"),
    }
}

/// Writes how many entries are committed, and the answer to a read after them.
fn put_sight(out: &mut Vec<u8>, count: u32, value: Option<&[u8]>) -> Result<(), NoMemory>
    ensures { OnOk result (out.new.items ≡ out.old.items ++ sight_text count (value_answer (option_map (λ v. v.now) value.entry))) }
{
    put(out, b" ")?;
    put_number(out, u64::from(count))?;
    put_read(out, value)?;
    put(out, b"\n")
}

fn put_line(out: &mut Vec<u8>, tick: u32, sight: &[u8]) -> Result<(), NoMemory>
    ensures { OnOk result (out.new.items ≡ out.old.items ++ line tick sight.now) }
{
    put(out, b"peek ")?;
    put_number(out, u64::from(tick))?;
    put(out, sight)
}

impl Lines {
    pub fn new(alloc: Global) -> Lines
        ensures { result ≡ nothing_printed }
    {
        Lines {
            bytes: Vec::new(alloc),
            last: Vec::new(alloc),
            has_last: false,
            sight: Vec::new(alloc),
        }
    }

    /// Writes a line of how many entries are committed at the end of the tick, and of the value that a read of the key
    /// finds after them, unless the last line says the same.
    pub fn note(&mut self, tick: u32, count: u32, value: Option<&[u8]>) -> Result<(), NoMemory>
        ensures { OnOk result (self.new ≡ after_tick tick (Some (sight_text count (value_answer (option_map (λ v. v.now) value.entry)))) self.old) }
    {
        self.sight.clear();
        put_sight(&mut self.sight, count, value)?;
        if self.has_last && self.last.as_slice() == self.sight.as_slice() {
            return Ok(());
        }
        put_line(&mut self.bytes, tick, self.sight.as_slice())?;
        mem::swap(&mut self.last, &mut self.sight);
        self.has_last = true;
        Ok(())
    }

    pub fn into_blob(self) -> Blob
        ensures { result ≡ self.bytes }
    {
        Blob::from_vec(self.bytes)
    }
}
