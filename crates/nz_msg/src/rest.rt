//! What is left to read of a body.

ghost use Rattle.std.specs.Prelude.{◌≡◌, ◌≤◌, ◌==◌, length, take, drop, IfOk};

use bytes::Bytes;
use nz_base::{Blob, NoMemory};
use std::marker::Model;

/// The last bytes of a body, which are still to be read. A clause sees the list of them.
#[derive(Debug, Drop)]
pub struct Rest<'a> {
    body: &'a Bytes,
    bytes: &'a [u8],
}

impl<'a> Model for Rest<'a> {
    ghost use Rattle.std.specs.Prelude.{ℕ, List};
    ghost use Rattle.nz_msg.specs.Rest.{IsEndOf};

    ghost Value = { List ℕ };

    ghost view = { λ r. r.bytes.now };

    ghost invariant = { λ r. IsEndOf r.bytes.now r.body.now };
}

impl<'a> Rest<'a> {
    /// The whole body.
    pub fn new(body: &'a Bytes) -> Rest<'a>
        ensures { result ≡ body.now }
    {
        Rest {
            body,
            bytes: body.as_slice(),
        }
    }

    pub fn len(&self) -> usize
        ensures { result ≡ length self.now }
    {
        self.bytes.len()
    }

    pub fn is_empty(&self) -> bool
        ensures { result ≡ (length self.now == 0) }
    {
        self.bytes.is_empty()
    }

    pub fn as_slice(&self) -> &'a [u8]
        ensures { result.now ≡ self.now }
    {
        self.bytes
    }

    /// The same bytes, to be read twice.
    pub fn again(&self) -> Rest<'a>
        ensures { result ≡ self.now }
    {
        Rest {
            body: self.body,
            bytes: self.bytes,
        }
    }

    /// What is left after so many bytes more.
    pub fn after(self, len: usize) -> Rest<'a>
        requires { len ≤ length self }
        ensures { result ≡ drop len self.entry }
    {
        Rest {
            body: self.body,
            bytes: &self.bytes[len..],
        }
    }

    /// The first so many bytes, as a share of the body.
    pub fn share(&self, len: usize) -> Result<Blob, NoMemory>
        requires { len ≤ length self.now }
        ensures { IfOk result (λ blob. blob ≡ take len self.now) }
    {
        let from = self.body.len() - self.bytes.len();
        Ok(Blob::from_bytes(self.body.slice(from..from + len)?))
    }
}
