//! Texts, read line by line.

ghost use Rattle.std.specs.Prelude.{◌≡◌, ◌≢◌, ◌≤◌, ℕ, Bool, List, length, nat_lt, take, IfOk, IfErr, OnErr, Option, Some, None, Result, Ok, Err};
ghost use Rattle.nz_script.specs.Bytes.{lines_in, tail_in};
ghost use Rattle.nz_script.specs.Reading as reading;
ghost use Rattle.nz_script.specs.Reading.{draft_after_line, draft_or_kind, scenario_at_end, scenario_from, scenario};
ghost use Rattle.nz_script.specs.Drafts.{first_draft};
ghost use Rattle.nz_script.specs.declared.faults.ScriptFault.TheVariants as script_fault;

use super::checks::fault_of;
use super::draft::Draft;
use super::faults::{Kind, ScriptFault};
use super::line::line_of;
use super::line_forms::Place;
use super::pieces::cut_at;
use nz_base::{MAX_TEXT, NoMemory, Scenario};
use std::alloc::Global;

fn is_passed_over(line: &[u8]) -> bool
    ensures { result ≡ reading.is_passed_over line.now }
{
    match line {
        [] => true,
        [first, ..] => *first == b'#',
    }
}

/// Takes the line in, or says what is wrong with it.
#[tactic(auto, unfolding(crate::specs::Reading::draft_after_line))]
fn step(alloc: Global, draft: &mut Draft, bytes: &[u8]) -> Result<Option<Kind>, NoMemory>
    ensures { IfOk result (λ refused. draft_after_line draft.old bytes.now ≡ draft_or_kind refused draft.new) }
{
    if is_passed_over(bytes) {
        return Ok(None);
    }
    let Some(line) = line_of(alloc, bytes)? else {
        return Ok(Some(Kind::Syntax));
    };
    match fault_of(draft, &line) {
        Some(kind) => Ok(Some(kind)),
        None => {
            draft.take(alloc, line.verb, line.words)?;
            Ok(None)
        }
    }
}

/// What is answered at the end of the text, in the line after the last newline.
fn ending(long: bool, tail: &[u8], line: u32, draft: Draft) -> Result<Scenario, ScriptFault>
    ensures { result ≡ scenario_at_end long tail.now line draft }
{
    if long {
        return Err(ScriptFault::Refusal {
            line,
            kind: Kind::Limit,
        });
    }
    if !tail.is_empty() {
        return Err(ScriptFault::Refusal {
            line,
            kind: Kind::Syntax,
        });
    }
    if draft.place.is(Place::Ended) {
        Ok(draft.into_scenario())
    } else {
        Err(ScriptFault::Refusal {
            line,
            kind: Kind::Order,
        })
    }
}

fn read_text(
    alloc: Global,
    long: bool,
    text: &[u8],
) -> Result<Result<Scenario, ScriptFault>, NoMemory>
    requires { length text.now ≤ MAX_TEXT }
    ensures { IfOk result (λ answer. answer ≡ scenario_from long (tail_in text.now) 1 first_draft (lines_in text.now)) }
{
    let mut draft = Draft::new(alloc);
    let mut rest = text;
    let mut line = 1;
    while let Some((bytes, later)) = cut_at(rest, b'\n') {
        if let Some(kind) = step(alloc, &mut draft, bytes)? {
            return Ok(Err(ScriptFault::Refusal { line, kind }));
        }
        line += 1;
        rest = later;
    }
    Ok(ending(long, rest, line, draft))
}

/// The first bytes, this many.
fn first_bytes(bytes: &[u8], most: usize) -> &[u8]
    ensures value { result.now ≡ take most bytes.now }
    ensures short { length result.now ≤ most }
{
    if bytes.len() > most {
        &bytes[..most]
    } else {
        bytes
    }
}

/// The scenario that the bytes are the text of, or the first bad line with its kind. Lines count
/// from 1, and comments and empty lines count too.
pub fn read(alloc: Global, bytes: &[u8]) -> Result<Scenario, ScriptFault>
    ensures ok { IfOk result (λ s. scenario bytes.now ≡ Ok s) }
    ensures refused { IfErr result (λ fault. fault ≢ script_fault.NoMemory → scenario bytes.now ≡ Err fault) }
{
    let long = bytes.len() > MAX_TEXT;
    match read_text(alloc, long, first_bytes(bytes, MAX_TEXT)) {
        Ok(answer) => answer,
        Err(_) => Err(ScriptFault::NoMemory),
    }
}
