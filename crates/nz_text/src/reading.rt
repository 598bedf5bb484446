//! Texts, read line by line.

ghost use Rattle.std.specs.Prelude.{◌≡◌, ◌≢◌, ◌<◌, length, IfOk, IfErr, Ok, Err};
ghost use Rattle.nz_script.specs.Bytes.{lines_in, tail_in};
ghost use Rattle.nz_text.specs.Reading.{empty_draft, printed_at_end, printed_from, printed_in};
ghost use Rattle.nz_text.specs.declared.fault.TextFault.TheVariants as text_fault;

use super::draft::Draft;
use super::fault::TextFault;
use super::printed::Printed;
use nz_base::NoMemory;
use nz_script::cut_at;
use std::alloc::Global;

/// The answer at the end of the text, in the line after the last newline.
fn ending(tail: &[u8], line: u32, draft: Draft) -> Result<Printed, TextFault>
    ensures { result ≡ printed_at_end tail.now line draft }
{
    if tail.is_empty() && draft.stage.rank() == 3 {
        Ok(draft.printed)
    } else {
        Err(TextFault::Bad { line })
    }
}

fn read_lines(alloc: Global, text: &[u8]) -> Result<Result<Printed, TextFault>, NoMemory>
    requires { length text.now < 4294967295 }
    ensures { IfOk result (λ answer. answer ≡ printed_from (tail_in text.now) 1 empty_draft (lines_in text.now)) }
{
    let mut draft = Draft::new(alloc);
    let mut rest = text;
    let mut line = 1;
    while let Some((bytes, later)) = cut_at(rest, b'\n') {
        let good = draft.step(alloc, bytes)?;
        if !good {
            return Ok(Err(TextFault::Bad { line }));
        }
        line += 1;
        rest = later;
    }
    Ok(ending(rest, line, draft))
}

/// What the text says: its events, its open requests and its history, or its first line that is not of the
/// grammar, from 1.
#[tactic(auto, unfolding(crate::specs::Reading::printed_in))]
pub fn read_text(alloc: Global, bytes: &[u8]) -> Result<Printed, TextFault>
    requires { length bytes.now < 4294967295 }
    ensures ok { IfOk result (λ printed. printed_in bytes.now ≡ Ok printed) }
    ensures refused { IfErr result (λ fault. fault ≢ text_fault.NoMemory → printed_in bytes.now ≡ Err fault) }
{
    match read_lines(alloc, bytes) {
        Ok(answer) => answer,
        Err(_) => Err(TextFault::NoMemory),
    }
}
