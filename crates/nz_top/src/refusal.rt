//! The lines of refusals, which take no memory.
ghost use Rattle.std.specs.Prelude.{◌≡◌, ◌≤◌};
ghost use Rattle.nz_top.specs.Calls as calls;
ghost use Rattle.nz_top.specs.Calls.{WritesLine};

use crate::output::write_all;
use arrayvec::ArrayString;
use itoa::Buffer;
use nz_base::Id;
use nz_edge::Sink;
use nz_script::Kind;

/// No line is longer: the words, and numbers of ten digits.
pub const LONGEST: usize = 36;

fn kind_name(kind: Kind) -> &'static str
    ensures { result.now ≡ calls.kind_name kind }
{
    match kind {
        Kind::Syntax => "syntax",
        Kind::Order => "order",
        Kind::Name => "name",
        Kind::Limit => "limit",
    }
}

#[tactic(auto, unfolding(crate::specs::Calls::refusal_line))]
/// The line that reports a bad line of the input, counted from 1, and what is wrong in it.
fn refusal_line(line: u32, kind: Kind) -> ArrayString<LONGEST>
    ensures { result.bytes ≡ calls.refusal_line line kind }
{
    let mut text = ArrayString::new();
    text.push_str("refused line ");
    text.push_str(Buffer::new().format(line));
    text.push_str(": ");
    text.push_str(kind_name(kind));
    text.push_str("\n");
    text
}

#[tactic(auto, unfolding(crate::specs::Calls::foul_line))]
/// The line that reports the first foul command.
fn foul_line(id: Id) -> ArrayString<LONGEST>
    ensures { result.bytes ≡ calls.foul_line id }
{
    let mut text = ArrayString::new();
    text.push_str("refused lock c");
    text.push_str(Buffer::new().format(id.client));
    text.push_str(" ");
    text.push_str(Buffer::new().format(id.num));
    text.push_str("\n");
    text
}

/// Writes the one line of a refusal.
pub fn refuse<O: Sink>(out: &mut O, line: &[u8])
    ensures line { WritesLine line.now (O.taken out.old) (O.taken out.new) (O.faults out.old) (O.faults out.new) }
    ensures counts { O.faults out.old ≤ O.faults out.new }
{
    let _ = write_all(out, line);
}

/// Reports the bad line of the input.
pub fn write_bad_line<O: Sink>(out: &mut O, line: u32, kind: Kind)
    ensures line { WritesLine (calls.refusal_line line kind) (O.taken out.old) (O.taken out.new) (O.faults out.old) (O.faults out.new) }
    ensures counts { O.faults out.old ≤ O.faults out.new }
{
    refuse(out, refusal_line(line, kind).as_bytes());
}

/// Reports the first foul command of the scenario.
pub fn write_foul<O: Sink>(out: &mut O, id: Id)
    ensures line { WritesLine (calls.foul_line id) (O.taken out.old) (O.taken out.new) (O.faults out.old) (O.faults out.new) }
    ensures counts { O.faults out.old ≤ O.faults out.new }
{
    refuse(out, foul_line(id).as_bytes());
}
