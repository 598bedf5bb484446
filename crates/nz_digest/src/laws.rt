//! Laws of digests.
ghost use Rattle.nz_digest.specs.Digests.{HasTwentyBytes, TwiceIsNothing, FoldsOneMore, AnyOrder};

/// How entries are folded into a digest.
pub fn digests_fold_keys_in()
    ensures twenty_bytes { HasTwentyBytes }
    ensures twice_is_nothing { TwiceIsNothing }
    ensures folds_one_more { FoldsOneMore }
    ensures any_order { AnyOrder }
{}
