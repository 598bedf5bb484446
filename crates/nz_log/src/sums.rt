//! One digest at each place of a log.

ghost use Rattle.std.specs.Prelude.{◌≡◌, ◌+◌, ◌≤◌, ◌<◌, ◌++◌, length, take, drop, filter, slice_index_or, vec_capacity, List};
ghost use Rattle.nz_base.specs.declared.key.Entry.{Entry as EntryModel};
ghost use Rattle.nz_log.specs.Places.{digest_of_log};
ghost use Rattle.nz_log.specs.Synced.{stays_after};
ghost use Rattle.nz_log.specs.Keeping.{IsSummed, digest_with, without_place};

use super::entries::stays_after;
use super::pages::Pages;
use nz_base::Key;
use nz_digest::Digest;

/// The last of the digests with one more entry folded in.
pub fn digest_after(digests: &[Digest], key: &Key) -> Digest
    ensures { (es : List EntryModel) → IsSummed es digests.now → result ≡ digest_with es key.now }
{
    let mut digest = match digests.last() {
        Some(last) => *last,
        None => Digest::zero(),
    };
    digest.fold_in(&Digest::of_entry(key.deadline, key.client, key.num));
    digest
}

// The digest of the entries before a place.
fn digest_before(digests: &[Digest], place: usize) -> Digest
    requires { place ≤ length digests.now }
    ensures { (es : List EntryModel) → IsSummed es digests.now → result ≡ digest_of_log (take place es) }
{
    match place.checked_sub(1) {
        Some(last) => digests[last],
        None => Digest::zero(),
    }
}

/// An entry with this key was put in at a place, and the digests are those of the others. Puts in
/// its digest, and keeps after it those of the entries that stay. No hash is computed but
/// the key's: another entry's is what it added to the digest before it.
pub fn put_digest(digests: &mut Vec<Digest>, entries: &Pages, place: usize, key: Key)
    requires within { place < length entries.now }
    requires room { length entries.now ≤ vec_capacity digests.old }
    requires here { (d : EntryModel) → (slice_index_or entries.now place d).key ≡ key }
    requires others { IsSummed (without_place entries.now place) digests.old.items }
    ensures { IsSummed (take (place + 1) entries.now ++ filter (stays_after key) (drop (place + 1) entries.now)) digests.new.items }
{
    let mut before = digest_before(digests, place);
    let mut sum = before;
    sum.fold_in(&Digest::of_entry(key.deadline, key.client, key.num));
    let mut kept = place;
    for from in place..digests.len() {
        let after = digests[from];
        let stays = stays_after(&key, entries.get(from + 1));
        if stays {
            digests[kept] = sum;
            kept += 1;
            sum.fold_in(&before);
            sum.fold_in(&after);
        }
        before = after;
    }
    digests.truncate(kept);
    digests.push_reserved(sum);
}

/// The first digests, up to a place, are those of the entries. Puts those of the other entries after
/// them, in the place of what is there.
pub fn put_digests(digests: &mut Vec<Digest>, entries: &Pages, from: usize)
    requires within { from ≤ length entries.now }
    requires room { length entries.now ≤ vec_capacity digests.old }
    requires first { IsSummed (take from entries.now) (take from digests.old.items) }
    ensures { IsSummed entries.now digests.new.items }
{
    digests.truncate(from);
    for place in from..entries.len() {
        let digest = digest_after(digests, &entries.get(place).key);
        digests.push_reserved(digest);
    }
}
