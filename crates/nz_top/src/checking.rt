//! Judging the text of the input, and writing the verdict.
ghost use Rattle.std.specs.Prelude.{◌≡◌, ◌≤◌, ◌⊎◌, IfOk, Err};
ghost use Rattle.nz_edge.specs.Faults.{Rose};
ghost use Rattle.nz_top.specs.declared.input.Stop.TheVariants as stops;
ghost use Rattle.nz_top.specs.declared.status.Status.TheVariants as status;
ghost use Rattle.nz_top.specs.Checking as checking;
ghost use Rattle.nz_top.specs.Checking.{IsJudged, IsVerdictOn, WritesVerdict, why_name};

use crate::input::{Stop, read_input};
use crate::output::write_all;
use crate::refusal::{LONGEST, refuse};
use crate::status::Status;
use arrayvec::ArrayString;
use itoa::Buffer;
use nz_check::{MAX_PRINTED, Verdict, Why, check};
use nz_edge::{Sink, Source};
use std::alloc::Global;

/// A text is looked at up to this many bytes, one more than it may have.
const MAX_INPUT: usize = MAX_PRINTED + 1;

fn name_of(why: Why) -> &'static str
    ensures { result.now ≡ why_name why }
{
    match why {
        Why::Form => "form",
        Why::Repeat => "repeat",
        Why::Unsent => "unsent",
        Why::Missing => "missing",
        Why::Open => "open",
        Why::Order => "order",
        Why::Answer => "answer",
        Why::Limit => "limit",
    }
}

#[tactic(auto, unfolding(crate::specs::Checking::no_line))]
/// The line that says which line of a text is wrong, and why.
fn no_line(line: u32, why: Why) -> ArrayString<LONGEST>
    ensures { result.bytes ≡ checking.no_line line why }
{
    let mut text = ArrayString::new();
    text.push_str("no line ");
    text.push_str(Buffer::new().format(line));
    text.push_str(": ");
    text.push_str(name_of(why));
    text.push_str("\n");
    text
}

/// The verdict on the text of the input.
fn judge_input<S: Source>(alloc: Global, source: &mut S) -> Result<Verdict, Stop>
    ensures verdict { IfOk result (IsVerdictOn (S.left source.old)) }
    ensures fault { result ≡ Err stops.Fault → Rose (S.faults source.old) (S.faults source.new) }
    ensures counts { S.faults source.old ≤ S.faults source.new }
{
    let bytes = match read_input(alloc, source, MAX_INPUT) {
        Ok(bytes) => bytes,
        Err(stop) => return Err(stop),
    };
    match check(alloc, &bytes) {
        Ok(verdict) => Ok(verdict),
        Err(_) => Err(Stop::NoMemory),
    }
}

/// Writes the verdict. The status says which it is, and whether it was written.
fn write_verdict<O: Sink>(out: &mut O, verdict: Verdict) -> Status
    ensures written { WritesVerdict verdict (O.taken out.old) (O.taken out.new) (O.faults out.old) (O.faults out.new) result }
    ensures write_fault { result ≡ status.WriteFault → Rose (O.faults out.old) (O.faults out.new) }
    ensures counts { O.faults out.old ≤ O.faults out.new }
{
    match verdict {
        Verdict::Yes => match write_all(out, b"yes\n") {
            Ok(()) => Status::Done,
            Err(_) => Status::WriteFault,
        },
        Verdict::No { line, why } => {
            refuse(out, no_line(line, why).as_bytes());
            Status::Rejected
        }
    }
}

/// Judges the text of the input, and writes the verdict.
#[tactic(auto, using(crate::proofs::Checks::verdict_written, crate::proofs::Checks::nothing_failed))]
pub fn check_input<S: Source, O: Sink>(alloc: Global, source: &mut S, out: &mut O) -> Status
    ensures judged { IsJudged (S.left source.old) (O.taken out.old) (O.taken out.new) (O.faults out.old) (O.faults out.new) result
        ⊎ ((result ≡ status.ReadFault) ⊎ (result ≡ status.NoMemory)) }
    ensures complete { ¬ Rose (S.faults source.old) (S.faults source.new) → ¬ Rose (O.faults out.old) (O.faults out.new)
        → ((result ≡ status.Done) ⊎ (result ≡ status.Rejected)) ⊎ (result ≡ status.NoMemory) }
    ensures read_fault { result ≡ status.ReadFault → Rose (S.faults source.old) (S.faults source.new) }
    ensures write_fault { result ≡ status.WriteFault → Rose (O.faults out.old) (O.faults out.new) }
    ensures unwritten { (result ≡ status.ReadFault) ⊎ (result ≡ status.NoMemory) → O.taken out.new ≡ O.taken out.old }
    ensures counts { (S.faults source.old ≤ S.faults source.new) × (O.faults out.old ≤ O.faults out.new) }
{
    match judge_input(alloc, source) {
        Ok(verdict) => write_verdict(out, verdict),
        Err(Stop::Fault) => Status::ReadFault,
        Err(Stop::NoMemory) => Status::NoMemory,
    }
}
