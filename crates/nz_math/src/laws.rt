//! How many members sets share: the laws of quorums. A set is a test on numbers, of which those below
//! a limit count, or a list of different numbers below the limit; `list_is_set` joins the two.

ghost use Rattle.std.specs.Prelude.{◌≡◌, ◌+◌, ◌*◌, ◌<◌, ◌≤◌, ℕ, Bool, true, List, length, IsFalse};
ghost use Rattle.nz_math.specs.Count.{count_below, both, everyone, all_but, IsWithin, is_in, IsChoice, AreTwoAmong, IsShared};
ghost use Rattle.nz_math.specs.Quorum.{half_up, group_size, slow_quorum, fast_quorum};

/// Two sets within a third have together at most as many members as the third and their common ones.
pub fn shared_members()
    ensures { (n : ℕ) (p q among : ℕ → Bool) → IsWithin n p among → IsWithin n q among
        → count_below n p + count_below n q ≤ count_below n among + count_below n (both p q) }
{}

/// A list of different numbers below a limit has as many as pass its membership test.
pub fn list_is_set()
    ensures { (n : ℕ) (xs : List ℕ) → IsChoice n xs → count_below n (is_in xs) ≡ length xs }
{}

/// Below a limit there are as many numbers as it says, and one fewer without one of them.
pub fn sizes_of_all()
    ensures every { (n : ℕ) → count_below n everyone ≡ n }
    ensures all_but_one { (n m : ℕ) → m < n → count_below n (all_but m) + 1 ≡ n }
{}

/// The fast quorums of groups that may lose one, two, three and four members.
pub fn fast_quorum_sizes()
    ensures one { fast_quorum 1 ≡ 3 }
    ensures two { fast_quorum 2 ≡ 4 }
    ensures three { fast_quorum 3 ≡ 6 }
    ensures four { fast_quorum 4 ≡ 7 }
{}

/// A fast and a slow quorum share one member more than half of f, rounded up.
pub fn fast_meets_slow()
    ensures { (f n : ℕ) (p q : ℕ → Bool) → AreTwoAmong (group_size f) n p q
        → fast_quorum f ≤ count_below n p → slow_quorum f ≤ count_below n q
        → half_up f + 1 ≤ count_below n (both p q) }
{}

/// What a fast and a slow quorum share is more than half of the slow one.
pub fn more_than_half()
    ensures { (f : ℕ) → slow_quorum f < 2 * (half_up f + 1) }
{}

/// Two slow quorums share a member.
pub fn slow_meets_slow()
    ensures { (f n : ℕ) (p q : ℕ → Bool) → AreTwoAmong (group_size f) n p q
        → slow_quorum f ≤ count_below n p → slow_quorum f ≤ count_below n q
        → 1 ≤ count_below n (both p q) }
{}

/// Two slow quorums share two members where both do without the same one.
pub fn slow_meets_slow_of_others()
    ensures { (f n : ℕ) (p q : ℕ → Bool) → AreTwoAmong (2 * f) n p q
        → slow_quorum f ≤ count_below n p → slow_quorum f ≤ count_below n q
        → 2 ≤ count_below n (both p q) }
{}

/// A slow quorum and f more share a member where both do without the same one.
pub fn rest_meets_slow_of_others()
    ensures { (f n : ℕ) (p q : ℕ → Bool) → AreTwoAmong (2 * f) n p q
        → f ≤ count_below n p → slow_quorum f ≤ count_below n q
        → 1 ≤ count_below n (both p q) }
{}

/// A set with more members than a list has one that is not in the list.
pub fn member_outside()
    ensures { (n : ℕ) (p : ℕ → Bool) (left : List ℕ) → length left < count_below n p
        → (x : ℕ) × (x < n) × (p x ≡ true) × IsFalse (is_in left x) }
{}

/// Two lists of different numbers below n that are longer than n and a third together share a number
/// that is not in the third.
pub fn lists_share()
    ensures { (n : ℕ) (xs ys left : List ℕ) → IsChoice n xs → IsChoice n ys
        → n + length left < length xs + length ys → (x : ℕ) × IsShared xs ys left x }
{}

/// The same where neither has one number: then they need one fewer.
pub fn lists_of_others_share()
    ensures { (n m : ℕ) (xs ys left : List ℕ) → IsChoice n xs → IsChoice n ys
        → m < n → IsFalse (is_in xs m) → IsFalse (is_in ys m)
        → n + length left ≤ length xs + length ys → (x : ℕ) × IsShared xs ys left x }
{}
