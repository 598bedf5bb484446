//! Digests of lists of entries, which replicas compare in place of the lists.
#![tactic(auto)]

ghost use Rattle.std.specs.Prelude.{◌≡◌, ℕ, ◌↔◌, length, nat_eq, IsTrue};
ghost use Rattle.std.specs.Cmp.{partial_equiv_from_equiv};
ghost use Rattle.std.specs.Cmp.Lexicographic.{nat_list_eq_equiv, pointwise};
ghost use Rattle.nz_digest.specs.Digests.{digest_of_key, digest_of_none, xor_bytes};

mod laws;

pub use laws::digests_fold_keys_in;
use sha1::Sha1;
use std::marker::Model;

/// The bytes of a digest.
const SIZE: usize = 20;

/// The exclusive or of the SHA-1 (FIPS 180-4) of each entry's key. Two lists of entries with one
/// digest are taken to be one list; SHA-1 does not keep out somebody who looks for a collision.
#[derive(Clone, Copy, Debug)]
pub struct Digest {
    bytes: [u8; SIZE],
}

impl Model for Digest {
    ghost use Rattle.std.specs.Prelude.{◌≡◌, List, ℕ, length};

    ghost Value = { List ℕ };

    ghost view = { λ d. d.bytes };

    ghost invariant = { λ d. length d.bytes ≡ 20 };

    ghost inverse = { λ bytes. record { bytes = bytes } };
}

impl Digest {
    /// The digest of no entries.
    pub fn zero() -> Digest
        ensures { result ≡ digest_of_none }
    {
        Digest { bytes: [0; SIZE] }
    }

    /// The digest of the one entry with this key; the deadline is in clock units.
    #[tactic(auto, unfolding(crate::specs::Digests::key_bytes))]
    pub fn of_entry(deadline: u64, client: u32, num: u32) -> Digest
        ensures { result ≡ digest_of_key deadline client num }
    {
        let mut hasher = Sha1::new();
        hasher.update(&deadline.to_be_bytes());
        hasher.update(&client.to_be_bytes());
        hasher.update(&num.to_be_bytes());
        Digest {
            bytes: hasher.finalize(),
        }
    }

    /// The digest with these bytes, as messages carry them.
    pub fn from_bytes(bytes: [u8; SIZE]) -> Digest
        ensures { result ≡ bytes }
    {
        Digest { bytes }
    }

    /// The bytes, as messages carry them.
    pub fn as_bytes(&self) -> &[u8; SIZE]
        ensures bytes { result.now ≡ self.now }
        ensures length { length result.now ≡ 20 }
    {
        &self.bytes
    }

    /// Adds the entries of `other`, or takes them away where they are in.
    pub fn fold_in(&mut self, other: &Digest)
        ensures { self.new ≡ xor_bytes self.old other.now }
    {
        flip(&mut self.bytes, &other.bytes);
    }
}

impl PartialEq for Digest {
    ghost eq = { pointwise nat_eq };

    ghost laws = { partial_equiv_from_equiv nat_list_eq_equiv };

    fn eq(&self, other: &Digest) -> bool
        ensures value { result ≡ pointwise nat_eq self.now other.now }
        ensures same { IsTrue result ↔ (self.now ≡ other.now) }
    {
        self.bytes.as_slice() == other.bytes.as_slice()
    }
}

impl Eq for Digest {
    ghost laws = { nat_list_eq_equiv };
}

// Flips the bits of each byte that are set in that of `mask`.
fn flip(bytes: &mut [u8; SIZE], mask: &[u8; SIZE])
    ensures { bytes.new ≡ xor_bytes bytes.old mask.now }
{
    for (place, byte) in bytes.iter_mut().enumerate() {
        *byte ^= mask[place];
    }
}

#[cfg(test)]
mod tests {
    use super::*;

    // The outcomes are those of the tool sha1sum on the 16 bytes of each key.
    #[test]
    fn entries_have_the_sha1_of_their_keys(rt: HostRuntime) {
        let table = [
            (
                12500,
                0,
                1,
                [
                    0x67, 0xa7, 0x8b, 0xbe, 0xe5, 0xeb, 0x7b, 0xbd, 0x61, 0x32, 0x20, 0xa9, 0x2e,
                    0x03, 0x21, 0x89, 0x55, 0x33, 0x2d, 0xee,
                ],
            ),
            (
                12500,
                1,
                0,
                [
                    0x22, 0xd6, 0x45, 0x71, 0x0d, 0xba, 0x56, 0x1a, 0x9f, 0x73, 0xdc, 0x87, 0xbc,
                    0x68, 0xef, 0x77, 0x46, 0x6e, 0x10, 0xd9,
                ],
            ),
            (
                9223372036854775807,
                63,
                2000,
                [
                    0xb6, 0x01, 0xd9, 0xc3, 0xdb, 0x40, 0xb6, 0xae, 0x55, 0xa5, 0x89, 0xd4, 0x7d,
                    0x65, 0xdf, 0xce, 0x5b, 0xcb, 0x22, 0x6e,
                ],
            ),
        ];
        for (deadline, client, num, expected) in table {
            assert_eq!(rt;
                Digest::of_entry(deadline, client, num),
                Digest::from_bytes(expected)
            );
        }
        let abc = [
            0xa9, 0x99, 0x3e, 0x36, 0x47, 0x06, 0x81, 0x6a, 0xba, 0x3e, 0x25, 0x71, 0x78, 0x50,
            0xc2, 0x6c, 0x9c, 0xd0, 0xd8, 0x9d,
        ];
        assert_eq!(rt; Sha1::digest(b"abc"), abc);
    }

    #[test]
    fn two_entries_are_folded_in_any_order(rt: HostRuntime) {
        let first = Digest::of_entry(12500, 0, 1);
        let second = Digest::of_entry(12500, 1, 0);
        let both = [
            0x45, 0x71, 0xce, 0xcf, 0xe8, 0x51, 0x2d, 0xa7, 0xfe, 0x41, 0xfc, 0x2e, 0x92, 0x6b,
            0xce, 0xfe, 0x13, 0x5d, 0x3d, 0x37,
        ];
        let mut digest = Digest::zero();
        assert_eq!(rt; *digest.as_bytes(), [0; SIZE]);
        digest.fold_in(&first);
        assert_eq!(rt; digest, first);
        digest.fold_in(&second);
        assert_eq!(rt; *digest.as_bytes(), both);
        digest.fold_in(&first);
        assert_eq!(rt; digest, second);
    }
}
