//! Laws of crash vectors, for clusters of any size.
ghost use Rattle.nz_cv.specs.Vectors.{OwnStays, NeverFalls, TakesIn, AddsNothing, Idempotent, CrashConsistency};

/// What merging keeps.
pub fn merged_vectors_never_fall()
    ensures own_stays { OwnStays }
    ensures never_falls { NeverFalls }
    ensures takes_in { TakesIn }
    ensures adds_nothing { AddsNothing }
    ensures idempotent { Idempotent }
{}

/// Which collected messages are crash-consistent for their collector, in the words of Michael et al.
pub fn consistent_where_none_is_stray()
    ensures { CrashConsistency }
{}
