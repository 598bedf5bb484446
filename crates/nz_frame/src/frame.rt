//! Frames, made and read.

ghost use Rattle.std.specs.Prelude.{◌≡◌, ◌+◌, ◌≤◌, ◌∷◌, ◌++◌, ℕ, List, length, take, drop, IsOkAnd};
ghost use Rattle.std.specs.Prelude.{IfOk, IfErr, OnOk, Some, None};
ghost use Rattle.byteorder.specs.Endian.{big_bytes};
ghost use Rattle.nz_frame.specs.Address.{IsKind, IsAddress};
ghost use Rattle.nz_frame.specs.Grammar.{frame, IsFrame, SameParts, AreBytes};
ghost use Rattle.nz_frame.specs.Refusal.{refusal};

use super::reading::{FrameView, HEAD, VERSION, read_parts};
use super::refusal::FrameRefusal;
use byteorder::{BigEndian, ByteOrder};
use bytes::Bytes;
use std::alloc::AllocError;
use std::marker::Model;

/// How many bytes of a frame come before its body.
const HEADER: u8 = 10;

/// A frame, or bytes that are none. Contracts see all its bytes. It has a header of its own, and a body that it may have
/// in common with other frames.
#[derive(Debug, Drop)]
pub struct Frame {
    header: [u8; 10],
    /// How many bytes of the header there are: ten, or all where there are fewer.
    size: u8,
    /// Where it is set the bytes are a frame, so that its parts are read without a test.
    checked: bool,
    body: Bytes,
}

impl Model for Frame {
    ghost use Rattle.std.specs.Prelude.{ℕ, ◌≤◌, List, ◌++◌, take};
    ghost use Rattle.nz_frame.specs.Parts.{AreParts};

    ghost Value = { List ℕ };

    ghost view = { λ f. take f.size f.header ++ f.body };

    ghost invariant = { λ f. (f.size ≤ 10) × AreParts f.checked (take f.size f.header) f.body };
}

// The first ten bytes of the frame of this body.
fn header(kind: u8, from: u16, to: u16, body: &[u8]) -> [u8; 10]
    requires { length body.now ≤ 16777210 }
    ensures header { result ≡ big_bytes 4 (6 + length body.now) ++ 1 ∷ kind ∷ (big_bytes 2 from ++ big_bytes 2 to) }
    ensures bytes { AreBytes body.now }
{
    let mut header = [0; 10];
    BigEndian::write_u32(&mut header, HEAD + body.len() as u32);
    header[4] = VERSION;
    header[5] = kind;
    BigEndian::write_u16(&mut header[6..], from);
    BigEndian::write_u16(&mut header[8..], to);
    header
}

// So many bytes as the beginning of a header.
fn header_of(bytes: &[u8], size: usize) -> [u8; 10]
    requires fits { size ≤ 10 }
    requires inside { size ≤ length bytes.now }
    ensures header { take size result ≡ take size bytes.now }
    ensures bytes { AreBytes bytes.now }
{
    let mut header = [0; 10];
    header[..size].copy_from_slice(&bytes[..size]);
    header
}

impl Frame {
    /// The frame of these parts. It takes no memory.
    #[tactic(auto, unfolding(crate::specs::Grammar::frame))]
    pub fn new(kind: u8, from: u16, to: u16, body: Bytes) -> Frame
        requires kind { IsKind kind }
        requires from { IsAddress from }
        requires to { IsAddress to }
        requires body { length body ≤ 16777210 }
        ensures { result ≡ frame kind from to body }
    {
        let header = header(kind, from, to, body.as_slice());
        Frame {
            header,
            size: HEADER,
            checked: true,
            body,
        }
    }

    /// These bytes, be they a frame or not. It takes no memory.
    pub fn from_bytes(bytes: Bytes) -> Frame
        ensures { result ≡ bytes }
    {
        let mut body = bytes;
        let size = body.len().min(usize::from(HEADER));
        let header = header_of(body.as_slice(), size);
        body.advance(size);
        Frame {
            header,
            size: size as u8,
            checked: false,
            body,
        }
    }

    /// How many bytes there are.
    pub fn len(&self) -> usize
        ensures { result ≡ length self.now }
    {
        self.header().len() + self.body().len()
    }

    /// The first ten bytes, or all where there are fewer.
    pub fn header(&self) -> &[u8]
        ensures { result.now ≡ take 10 self.now }
    {
        &self.header[..usize::from(self.size)]
    }

    /// The bytes after the header.
    pub fn body(&self) -> &Bytes
        ensures body { result.now ≡ drop 10 self.now }
        ensures bytes { AreBytes self.now }
    {
        &self.body
    }

    // The parts of bytes that are a frame.
    fn known_parts(&self) -> FrameView<'_>
        requires { refusal self.now ≡ None }
        ensures { IsFrame self.now result.kind result.from result.to result.body.now }
    {
        FrameView {
            kind: self.header[5],
            from: BigEndian::read_u16(&self.header[6..]),
            to: BigEndian::read_u16(&self.header[8..]),
            body: self.body.as_slice(),
        }
    }

    /// The parts of the frame. What is read borrows the body.
    pub fn parts(&self) -> Result<FrameView<'_>, FrameRefusal>
        ensures frame { IfOk result (λ v. IsFrame self.now v.kind v.from v.to v.body.now) }
        ensures every_frame { (kind from to : ℕ) (body : List ℕ) → IsFrame self.now kind from to body
            → IsOkAnd result (λ v. SameParts v.kind v.from v.to v.body.now kind from to body) }
        ensures accepted { OnOk result (refusal self.now ≡ None) }
        ensures refused { IfErr result (λ r. refusal self.now ≡ Some r) }
        ensures bytes { AreBytes self.now }
    {
        if self.checked {
            return Ok(self.known_parts());
        }
        let header = &self.header[..usize::from(self.size)];
        read_parts(header, self.body.as_slice())
    }

    /// The parts of the frame that the bytes are. What is read borrows the bytes.
    pub fn read(bytes: &[u8]) -> Result<FrameView<'_>, FrameRefusal>
        ensures frame { IfOk result (λ v. IsFrame bytes.now v.kind v.from v.to v.body.now) }
        ensures every_frame { (kind from to : ℕ) (body : List ℕ) → IsFrame bytes.now kind from to body
            → IsOkAnd result (λ v. SameParts v.kind v.from v.to v.body.now kind from to body) }
        ensures accepted { OnOk result (refusal bytes.now ≡ None) }
        ensures refused { IfErr result (λ r. refusal bytes.now ≡ Some r) }
    {
        let (header, body) = bytes.split_at(bytes.len().min(usize::from(HEADER)));
        read_parts(header, body)
    }
}

/// The same frame once more. Its body is shared.
impl Clone for Frame {
    ghost is_clone = { λ frame copy. copy ≡ frame };

    fn clone(&self) -> Result<Frame, AllocError> {
        Ok(Frame {
            header: self.header,
            size: self.size,
            checked: self.checked,
            body: self.body.clone()?,
        })
    }
}
