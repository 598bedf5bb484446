//! Laws of the merged log, over all reports.

ghost use Rattle.std.specs.Prelude.{◌≡◌, ◌+◌, ◌≤◌, ◌⊎◌, ℕ, Bool, List, ◌++◌, length, IsTrue};
ghost use Rattle.std.specs.List.{AllByRecursion};
ghost use Rattle.nz_base.specs.declared.key.Key.{Key};
ghost use Rattle.nz_base.specs.declared.key.Entry.{Entry};
ghost use Rattle.nz_base.specs.Key.{id_eq, id_of};
ghost use Rattle.nz_base.specs.Log.{keys_of, has_key, IsLog, is_above_last};
ghost use Rattle.nz_merge.specs.declared.report.Report.{Report};
ghost use Rattle.nz_merge.specs.Merged.{AreFit, latest_reports, merged_synced_part, holders, threshold, merged, begins_with, count_beginning};

/// The merged log is a log.
pub fn merged_is_log()
    ensures { (f : ℕ) (reports : List Report) → AreFit reports → IsLog (merged f reports) }
{}

/// It begins with the synced part that is taken.
pub fn begins_with_synced_part()
    ensures entries { (f : ℕ) (reports : List Report)
        → (rest : List Entry) × (merged f reports ≡ merged_synced_part (latest_reports reports) ++ rest) }
    ensures prefixes { (f : ℕ) (reports : List Report) (prefix : List Key)
        → IsTrue (begins_with (keys_of (merged_synced_part (latest_reports reports))) prefix)
        → IsTrue (begins_with (keys_of (merged f reports)) prefix) }
{}

/// Of at most f + 1 reports, let enough of the kept ones begin with some keys. Let these keys be a prefix of the
/// synced part that is taken, or it a prefix of them. Then the merged log begins with them.
pub fn prefix_stays()
    ensures { (f : ℕ) (reports : List Report) (prefix : List Key) → AreFit reports
        → length reports ≤ f + 1 → threshold f ≤ count_beginning prefix (latest_reports reports)
        → IsTrue (begins_with (keys_of (merged_synced_part (latest_reports reports))) prefix)
        ⊎ IsTrue (begins_with prefix (keys_of (merged_synced_part (latest_reports reports))))
        → IsTrue (begins_with (keys_of (merged f reports)) prefix) }
{}

/// A key that enough of the kept logs hold, after the synced part, is in the merged log if no other key with its id
/// is.
pub fn held_key_stays()
    ensures { (f : ℕ) (reports : List Report) (key : Key) → AreFit reports
        → threshold f ≤ length (holders (latest_reports reports) key)
        → IsTrue (is_above_last (keys_of (merged_synced_part (latest_reports reports))) key)
        → ((x : Key) → IsTrue (has_key (keys_of (merged f reports)) x)
        → IsTrue (id_eq (id_of key) (id_of x)) → x ≡ key)
        → IsTrue (has_key (keys_of (merged f reports)) key) }
{}

/// Each entry comes from one of the logs: a test that all their entries pass, it passes.
pub fn entries_come_from_logs()
    ensures { (passes : Entry → Bool) (f : ℕ) (reports : List Report)
        → AllByRecursion (λ c. AllByRecursion (λ e. IsTrue (passes e)) c.log) reports
        → AllByRecursion (λ e. IsTrue (passes e)) (merged f reports) }
{}
