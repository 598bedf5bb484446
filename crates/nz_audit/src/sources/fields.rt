//! Fields of a frame, read at their places in its body without decoding it.

ghost use Rattle.std.specs.Prelude.{◌≡◌};
ghost use Rattle.nz_frame.specs.Grammar.{AreBytes};
ghost use Rattle.nz_audit.specs.Sources as sources;

use byteorder::{BigEndian, ByteOrder};
use nz_base::Id;
use nz_frame::Frame;

/// Whether the frame of a fast reply has an answer, by the byte that says it.
pub fn shows_answer(frame: &Frame) -> bool
    ensures shown { result ≡ sources.shows_answer frame.now }
    ensures bytes { AreBytes frame.now }
{
    let body = frame.body().as_slice();
    let Some(size) = body.get(36) else {
        return false;
    };
    match body.get(41 + 4 * usize::from(*size)) {
        Some(flag) => *flag == 1,
        None => false,
    }
}

/// The request that the frame of a reply names.
pub fn named_id(frame: &Frame) -> Option<Id>
    ensures shown { result ≡ sources.named_id frame.now }
    ensures bytes { AreBytes frame.now }
{
    let body = frame.body().as_slice();
    if body.len() < 16 {
        return None;
    }
    Some(Id {
        client: BigEndian::read_u32(&body[8..]),
        num: BigEndian::read_u32(&body[12..]),
    })
}

/// The number of the request that the frame of a request or an answer names.
pub fn named_num(frame: &Frame) -> Option<u32>
    ensures shown { result ≡ sources.named_num frame.now }
    ensures bytes { AreBytes frame.now }
{
    let body = frame.body().as_slice();
    if body.len() < 4 {
        return None;
    }
    Some(BigEndian::read_u32(body))
}
