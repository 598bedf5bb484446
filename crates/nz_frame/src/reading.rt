//! The tests of a frame, over its header and its body.

ghost use Rattle.std.specs.Prelude.{◌≡◌, ◌+◌, ◌≤◌, ◌++◌, ◌↔◌, length, drop};
ghost use Rattle.std.specs.Prelude.{IfOk, IfErr, OnOk, OnErr, IsFalse, IfSome, IsSome, Some};
ghost use Rattle.byteorder.specs.Endian.{big_number};
ghost use Rattle.nz_frame.specs.Address as address_words;
ghost use Rattle.nz_frame.specs.Address.{IsAddress};
ghost use Rattle.nz_frame.specs.Grammar.{IsFrame};
ghost use Rattle.nz_frame.specs.Parts.{IsHeaderSize};
ghost use Rattle.nz_frame.specs.declared.refusal.FrameRefusal.TheVariants.{BadActor};
ghost use Rattle.nz_frame.specs.Refusal.{stated_size, end_of, refusal};

use super::address::{is_address, is_kind};
use super::refusal::FrameRefusal;
use byteorder::{BigEndian, ByteOrder};

/// The version that every frame states.
pub const VERSION: u8 = 1;

/// The bytes between the length and the body: version, kind, sender and receiver.
pub const HEAD: u32 = 6;

/// The greatest length that a frame may state.
const MAX_LEN: u32 = 16_777_216;

/// A frame that was read, over the bytes that were given.
#[derive(Clone, Copy, Debug)]
pub struct FrameView<'a> {
    /// 1 to `KIND_COUNT`.
    pub kind: u8,
    /// The sender's address.
    pub from: u16,
    /// The receiver's address.
    pub to: u16,
    pub body: &'a [u8],
}

/// The length that the first four bytes state: how many bytes of the frame follow them.
pub fn frame_len(bytes: &[u8]) -> Option<u32>
    ensures some { IsSome result ↔ (4 ≤ length bytes.now) }
    ensures len { IfSome result (λ len. len ≡ big_number 4 bytes.now) }
{
    if bytes.len() < 4 {
        return None;
    }
    Some(BigEndian::read_u32(bytes))
}

// The tests on how many bytes there are.
#[tactic(auto, unfolding(crate::specs::Refusal::refusal))]
fn check_length(header: &[u8], body: &[u8]) -> Result<(), FrameRefusal>
    requires { IsHeaderSize (length header.now) (length body.now) }
    ensures ok { let bytes = header.now ++ body.now in
        OnOk result ((6 ≤ stated_size bytes) × (stated_size bytes ≤ 16777216) × (length bytes ≡ end_of bytes)) }
    ensures err { IfErr result (λ r. refusal (header.now ++ body.now) ≡ Some r) }
{
    let Some(len) = frame_len(header) else {
        return Err(FrameRefusal::Short {
            place: header.len() as u32,
        });
    };
    if len > MAX_LEN {
        return Err(FrameRefusal::TooLong { place: 0 });
    }
    let size = header.len() + body.len();
    if len < HEAD {
        return Err(FrameRefusal::Short {
            place: size.min(u32::MAX as usize) as u32,
        });
    }
    let end = 4 + len;
    if size < end as usize {
        return Err(FrameRefusal::Short { place: size as u32 });
    }
    if size > end as usize {
        return Err(FrameRefusal::Trailing { place: end });
    }
    Ok(())
}

// The address at a place, which must belong to somebody.
fn actor_at(bytes: &[u8], place: u32) -> Result<u16, FrameRefusal>
    requires { place + 2 ≤ length bytes.now }
    ensures address { IfOk result (λ a. a ≡ big_number 2 (drop place bytes.now)) }
    ensures known { IfOk result (λ a. IsAddress a) }
    ensures refusal { IfErr result (λ r. r ≡ BadActor place) }
    ensures unknown { OnErr result (IsFalse (address_words.is_address (big_number 2 (drop place bytes.now)))) }
{
    let address = BigEndian::read_u16(&bytes[place as usize..]);
    if !is_address(address) {
        return Err(FrameRefusal::BadActor { place });
    }
    Ok(address)
}

/// The parts of the frame of this header and this body.
#[tactic(auto, unfolding(crate::specs::Refusal::refusal))]
pub fn read_parts<'a>(header: &[u8], body: &'a [u8]) -> Result<FrameView<'a>, FrameRefusal>
    requires { IsHeaderSize (length header.now) (length body.now) }
    ensures frame { IfOk result (λ v. IsFrame (header.now ++ body.now) v.kind v.from v.to v.body.now) }
    ensures refused { IfErr result (λ r. refusal (header.now ++ body.now) ≡ Some r) }
{
    check_length(header, body)?;
    if header[4] != VERSION {
        return Err(FrameRefusal::BadVersion { place: 4 });
    }
    let kind = header[5];
    if !is_kind(kind) {
        return Err(FrameRefusal::BadKind { place: 5 });
    }
    let from = actor_at(header, 6)?;
    let to = actor_at(header, 8)?;
    Ok(FrameView {
        kind,
        from,
        to,
        body,
    })
}
