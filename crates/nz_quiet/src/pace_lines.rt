//! The lines that say how many ticks the requests of a run took.
ghost use Rattle.std.specs.Prelude.{◌≡◌, ◌++◌, ◌<◌, ◌+◌, ◌^◌, ◌==◌, ℕ, List, cond, length, max, count_by, get_or, IfOk, OnOk};
ghost use Rattle.std.specs.List.{flat_map, range_with_len};
ghost use Rattle.nz_machine.specs.rules.State.{Group};
ghost use Rattle.nz_machine.specs.journals.EventNotes.{events_at};
ghost use Rattle.nz_machine.specs.declared.event.Record.{Record};
ghost use Rattle.nz_quiet.specs.Pace.{took, above, above_all, ticks_line, ticks_lines, open_line, pace_text};

use super::pace::paces;
use nz_base::NoMemory;
use nz_machine::EventAt;
use nz_script::{put, put_number};
use std::alloc::Global;

/// Counts one request more that took this many ticks.
fn count(ticks: u32, counts: &mut Vec<usize>) -> Result<(), NoMemory>
    requires { (n : ℕ) → get_or counts.old.items n 0 < 2 ^ 32 }
    ensures len { OnOk result (length counts.new.items ≡ max (ticks + 1) (length counts.old.items)) }
    ensures counts { OnOk result ((n : ℕ) → get_or counts.new.items n 0 ≡ get_or counts.old.items n 0 + cond (ticks == n) 1 0) }
{
    let place = ticks as usize;
    if counts.len() <= place {
        counts.resize(place + 1, 0)?;
    }
    counts[place] += 1;
    Ok(())
}

/// Counts one request more, if it is not open.
fn count_pace(pace: Option<u32>, counts: &mut Vec<usize>) -> Result<(), NoMemory>
    requires { (n : ℕ) → get_or counts.old.items n 0 < 2 ^ 32 }
    ensures len { OnOk result (length counts.new.items ≡ max (above pace) (length counts.old.items)) }
    ensures counts { OnOk result ((n : ℕ) → get_or counts.new.items n 0 ≡ get_or counts.old.items n 0 + cond (took n pace) 1 0) }
{
    match pace {
        Some(ticks) => count(ticks, counts),
        None => Ok(()),
    }
}

/// How many requests took each number of ticks, from 0 on.
fn counts_of(alloc: Global, paces: &[Option<u32>]) -> Result<Vec<usize>, NoMemory>
    requires { length paces.now < 2 ^ 32 }
    ensures len { IfOk result (λ counts. length counts.items ≡ above_all paces.now) }
    ensures counts { IfOk result (λ counts. (n : ℕ) → get_or counts.items n 0 ≡ count_by (took n) paces.now) }
{
    let mut counts = Vec::new(alloc);
    for pace in paces {
        count_pace(*pace, &mut counts)?;
    }
    Ok(counts)
}

fn put_ticks(out: &mut Vec<u8>, ticks: usize, count: usize) -> Result<(), NoMemory>
    ensures { OnOk result (out.new.items ≡ out.old.items ++ ticks_line ticks count) }
{
    if count == 0 {
        return Ok(());
    }
    put(out, b"ticks ")?;
    put_number(out, ticks as u64)?;
    put(out, b" ")?;
    put_number(out, count as u64)?;
    put(out, b"\n")
}

fn put_counts(out: &mut Vec<u8>, counts: &[usize]) -> Result<(), NoMemory>
    ensures { OnOk result (out.new.items ≡ out.old.items ++ flat_map (λ n. ticks_line n (get_or counts.now n 0)) (range_with_len 0 (length counts.now))) }
{
    for ticks in 0..counts.len() {
        put_ticks(out, ticks, counts[ticks])?;
    }
    Ok(())
}

fn put_open(out: &mut Vec<u8>, paces: &[Option<u32>]) -> Result<(), NoMemory>
    ensures { OnOk result (out.new.items ≡ out.old.items ++ open_line paces.now) }
{
    let open = paces.iter().filter(|pace| pace.is_none()).count();
    put(out, b"open ")?;
    put_number(out, open as u64)?;
    put(out, b"\n")
}

fn put_paces(alloc: Global, out: &mut Vec<u8>, paces: &[Option<u32>]) -> Result<(), NoMemory>
    requires { length paces.now < 2 ^ 32 }
    ensures { OnOk result (out.new.items ≡ out.old.items ++ ticks_lines paces.now) }
{
    let counts = counts_of(alloc, paces)?;
    put_counts(out, &counts)
}

/// Writes a line `ticks N COUNT` for each number of ticks that requests of the run with these events took, and how many
/// are open.
pub fn put_pace(alloc: Global, out: &mut Vec<u8>, events: &[EventAt]) -> Result<(), NoMemory>
    ensures { OnOk result ((g : Group) (J : List Record) → events.now ≡ events_at g J → out.new.items ≡ out.old.items ++ pace_text g J) }
{
    let paces = paces(alloc, events)?;
    put_paces(alloc, out, paces.as_slice())?;
    put_open(out, paces.as_slice())?;
    put(out, b"end\n")
}
