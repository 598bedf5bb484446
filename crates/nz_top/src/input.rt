//! Reading the input.
ghost use Rattle.std.specs.Prelude.{◌≡◌, ◌<◌, ◌≤◌, ◌+◌, [], length, vec_len, IfOk, IfSome, Err};
ghost use Rattle.nz_edge.specs.Faults.{Rose};
ghost use Rattle.nz_edge.specs.Exposed.{Loses};
ghost use Rattle.nz_top.specs.Bytes.{Moved};
ghost use Rattle.nz_top.specs.declared.input.Stop.TheVariants as stops;

use nz_edge::Source;
use std::alloc::Global;

/// How much is asked of the source at a time.
const PIECE: usize = 4_096;

/// Why there is no input.
#[derive(Clone, Copy, Debug, PartialEq, Eq)]
pub enum Stop {
    Fault,
    NoMemory,
}

/// Reads once, and puts after the data what came.
fn read_piece<S: Source>(
    source: &mut S,
    piece: &mut [u8],
    taken: &mut Vec<u8>,
) -> Result<usize, Stop>
    requires { 0 < length piece.old }
    ensures moved { IfOk result (λ count. Moved (S.left source.old) (S.left source.new) taken.old.items taken.new.items count) }
    ensures within { IfOk result (λ count. count ≤ length piece.old) }
    ensures end { IfOk result (λ count. count ≡ 0 → IfSome (S.left source.old) (λ bytes. bytes ≡ [])) }
    ensures fault { result ≡ Err stops.Fault → Rose (S.faults source.old) (S.faults source.new) }
    ensures counts { S.faults source.old ≤ S.faults source.new }
{
    match source.read(piece) {
        Err(_) => Err(Stop::Fault),
        Ok(count) => {
            if taken.extend_from_slice(&piece[..count]).is_err() {
                return Err(Stop::NoMemory);
            }
            Ok(count)
        }
    }
}

/// Reads piece by piece. Each turn of the loop takes at least one byte, or is the last.
fn read_pieces<S: Source>(
    alloc: Global,
    source: &mut S,
    most: usize,
    piece: &mut [u8],
) -> Result<Vec<u8>, Stop>
    requires { 0 < length piece.old }
    ensures lost { IfOk result (λ bytes. Loses (S.left source.old) (S.left source.new) bytes.items) }
    ensures most { IfOk result (λ bytes. length bytes.items ≤ most) }
    ensures end { IfOk result (λ bytes. length bytes.items < most → IfSome (S.left source.new) (λ rest. rest ≡ [])) }
    ensures fault { result ≡ Err stops.Fault → Rose (S.faults source.old) (S.faults source.new) }
    ensures counts { S.faults source.old ≤ S.faults source.new }
{
    let mut bytes = Vec::new(alloc);
    while bytes.len() < most {
        let room = (most - bytes.len()).min(piece.len());
        match read_piece(source, &mut piece[..room], &mut bytes) {
            Err(stop) => return Err(stop),
            Ok(0) => return Ok(bytes),
            Ok(_) => {}
        }
    }
    Ok(bytes)
}

/// Reads to the end of the input, or until there are so many bytes.
pub fn read_input<S: Source>(alloc: Global, source: &mut S, most: usize) -> Result<Vec<u8>, Stop>
    ensures lost { IfOk result (λ bytes. Loses (S.left source.old) (S.left source.new) bytes.items) }
    ensures most { IfOk result (λ bytes. length bytes.items ≤ most) }
    ensures end { IfOk result (λ bytes. length bytes.items < most → IfSome (S.left source.new) (λ rest. rest ≡ [])) }
    ensures fault { result ≡ Err stops.Fault → Rose (S.faults source.old) (S.faults source.new) }
    ensures counts { S.faults source.old ≤ S.faults source.new }
{
    let mut piece = [0; PIECE];
    read_pieces(alloc, source, most, &mut piece)
}
