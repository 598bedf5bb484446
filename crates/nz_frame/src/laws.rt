//! Laws of the grammar and of the refusals, over all lists of bytes.

ghost use Rattle.std.specs.Prelude.{◌≡◌, ◌<◌, ◌^◌, ℕ, List, [], ◌++◌, length, drop, slice_index, Some, None};
ghost use Rattle.nz_frame.specs.Grammar.{IsFrame, SameParts, AreBytes};
ghost use Rattle.nz_frame.specs.Refusal.{sender, receiver, refusal};
ghost use Rattle.nz_frame.specs.declared.refusal.FrameRefusal.TheVariants.{Short, Trailing};

/// Bytes are the frame of one kind, sender, receiver and body alone: what was written is read back.
pub fn one_reading()
    ensures { (bytes : List ℕ) (kind from to : ℕ) (body : List ℕ) (kind' from' to' : ℕ) (body' : List ℕ)
        → IsFrame bytes kind from to body → IsFrame bytes kind' from' to' body'
        → SameParts kind from to body kind' from' to' body' }
{}

/// A frame is not refused.
pub fn frames_pass()
    ensures { (bytes : List ℕ) (kind from to : ℕ) (body : List ℕ)
        → IsFrame bytes kind from to body → refusal bytes ≡ None }
{}

/// Bytes that are not refused are the frame of their parts: writing these gives the same bytes.
pub fn only_frames_pass()
    ensures { (bytes : List ℕ) → AreBytes bytes → refusal bytes ≡ None
        → IsFrame bytes (slice_index bytes 5) (sender bytes) (receiver bytes) (drop 10 bytes) }
{}

/// No proper prefix of a frame is a frame.
pub fn no_prefix()
    ensures { (bytes rest : List ℕ) (kind from to : ℕ) (body : List ℕ) (kind' from' to' : ℕ) (body' : List ℕ)
        → IsFrame bytes kind from to body → IsFrame (bytes ++ rest) kind' from' to' body' → rest ≡ [] }
{}

/// A frame that is cut is too short, and the place is the number of bytes that are left.
pub fn cut_is_short()
    ensures { (bytes rest : List ℕ) (kind from to : ℕ) (body : List ℕ)
        → IsFrame (bytes ++ rest) kind from to body → 0 < length rest
        → refusal bytes ≡ Some (Short (length bytes)) }
{}

/// Bytes after a frame are refused at its end.
pub fn more_is_trailing()
    ensures { (bytes rest : List ℕ) (kind from to : ℕ) (body : List ℕ)
        → IsFrame bytes kind from to body → 0 < length rest
        → refusal (bytes ++ rest) ≡ Some (Trailing (length bytes)) }
{}

/// The place of a frame that is too short is the number of bytes given, where 32 bits can count them.
pub fn short_place()
    ensures { (bytes : List ℕ) (place : ℕ) → length bytes < 2 ^ 32
        → refusal bytes ≡ Some (Short place) → place ≡ length bytes }
{}
