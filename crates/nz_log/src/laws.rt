//! Laws of logs, each the contract of a function with nothing to do.
ghost use Rattle.std.specs.Prelude.{◌≡◌, ◌+◌, ◌<◌, ◌⊎◌, ℕ, List, [], ◌∷◌, ◌++◌, length, Some, None, IsTrue, IsFalse};
ghost use Rattle.nz_base.specs.declared.key.Id.{Id};
ghost use Rattle.nz_base.specs.declared.key.Key.{Key};
ghost use Rattle.nz_base.specs.declared.key.Entry.{Entry};
ghost use Rattle.nz_base.specs.Key.{key_below, id_eq, id_of};
ghost use Rattle.nz_digest.specs.Digests.{digest_of_key, xor_bytes};
ghost use Rattle.nz_base.specs.Log.{keys_of, has_key, has_id, is_above_last, HaveOwnIds, IsLog};
ghost use Rattle.nz_log.specs.Places.{place_of, last_entry, IsPlace, digest_of_log, digest_at};
ghost use Rattle.nz_log.specs.Synced.{Log, IsSound, synced_part, log_with_synced, displaced_entries};

use nz_base::MAX_ENTRIES;

/// A log with one more entry, of a greater key and a new id, is a log.
pub fn appended_is_log()
    ensures { (log : List Entry) (entry : Entry) → IsLog log
        → IsTrue (is_above_last (keys_of log) entry.key)
        → IsFalse (has_id (keys_of log) (id_of entry.key))
        → IsLog (log ++ entry ∷ []) }
{}

/// What a modification leaves is a log.
pub fn modified_is_log()
    ensures { (log : Log) (entry : Entry) → IsSound log
        → IsTrue (is_above_last (keys_of (synced_part log)) entry.key)
        → IsFalse (has_id (keys_of (synced_part log)) (id_of entry.key))
        → length log.entries < MAX_ENTRIES
        → IsSound (log_with_synced log entry) }
{}

/// A modification keeps the synced part, and puts one entry after it.
pub fn synced_part_stays()
    ensures { (log : Log) (entry : Entry) → IsSound log
        → synced_part (log_with_synced log entry) ≡ synced_part log ++ entry ∷ [] }
{}

/// An old entry of another id stays in the log or is displaced.
pub fn no_entry_is_lost()
    ensures { (log : Log) (entry : Entry) (key : Key)
        → IsTrue (has_key (keys_of log.entries) key)
        → IsFalse (id_eq (id_of entry.key) (id_of key))
        → IsTrue (has_key (keys_of (log_with_synced log entry).entries) key)
        ⊎ IsTrue (has_key (keys_of (displaced_entries log entry)) key) }
{}

/// Before appending it is enough to compare with the last entry.
pub fn last_entry_is_the_greatest()
    ensures none { (log : List Entry) (key : Key) → last_entry log ≡ None
        → IsTrue (is_above_last (keys_of log) key) }
    ensures some { (log : List Entry) (key : Key) (last : Entry) → last_entry log ≡ Some last
        → is_above_last (keys_of log) key ≡ key_below last.key key }
{}

/// The place of an id is a place of it, and there is no other.
pub fn place_is_the_only_one()
    ensures found { (log : List Entry) (id : Id) (place : ℕ)
        → place_of log id ≡ Some place → IsPlace log id place }
    ensures only { (log : List Entry) (id : Id) (place : ℕ) → HaveOwnIds (keys_of log)
        → IsPlace log id place → place_of log id ≡ Some place }
{}

/// The digest at the last place is that of the log without its last entry, with this one folded in.
pub fn digest_folds_one_more()
    ensures { (log : List Entry) (entry : Entry)
        → digest_at (log ++ entry ∷ []) (length log)
        ≡ xor_bytes (digest_of_log log) (digest_of_key entry.key.deadline entry.key.client entry.key.num) }
{}
