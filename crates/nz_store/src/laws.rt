//! What holds of the grammar, the map and the sequence of commands. Each law is the contract of a
//! function that does nothing.
ghost use Rattle.std.specs.Prelude.{◌≡◌, ◌↔◌, ◌<◌, ℕ, List, [], ◌∷◌, ◌++◌, length, slice_get, Some, None, if◌then◌else◌};
ghost use Rattle.std.specs.Str.{bytes_eq};
ghost use Rattle.nz_store.specs.declared.command.Command.{Command};
ghost use Rattle.nz_store.specs.Grammar.{IsValidCommand, Spells, spelling};
ghost use Rattle.nz_store.specs.Reading.{command_of};
ghost use Rattle.nz_store.specs.Entries.{Entries, IsMap, value_of, with_value, without_key};
ghost use Rattle.nz_store.specs.Sequence.{apply_bytes, store_from, store_after, answer_after, reply, replies};

/// A command has one spelling, which is read back, and bytes spell one command at most.
pub fn one_spelling()
    ensures read { (bytes : List ℕ) (c : Command) → (command_of bytes ≡ Some c) ↔ Spells c bytes }
    ensures back { (c : Command) → IsValidCommand c → command_of (spelling c) ≡ Some c }
    ensures bytes { (c : Command) (bytes others : List ℕ) → Spells c bytes → Spells c others → bytes ≡ others }
    ensures command { (c d : Command) (bytes : List ℕ) → Spells c bytes → Spells d bytes → c ≡ d }
{}

/// No command begins another.
pub fn no_command_begins_another()
    ensures { (c d : Command) (prefix rest : List ℕ) → Spells c prefix → Spells d (prefix ++ rest) → rest ≡ [] }
{}

/// A value that was set or removed is so at its key and at no other, and a store that began empty
/// has each key once.
pub fn store_is_a_map()
    ensures set { (s : Entries) (key value other : List ℕ)
        → value_of (with_value s key value) other ≡ (if bytes_eq other key then Some value else value_of s other) }
    ensures removed { (s : Entries) (key other : List ℕ) → value_of (without_key s key) other ≡ (if bytes_eq other key then None else value_of s other) }
    ensures once { (list : List (List ℕ)) → IsMap (store_after list) }
{}

/// A longer list goes on where the shorter one ended, and changes no answer before.
pub fn commands_in_turn()
    ensures joined { (s : Entries) (list more : List (List ℕ)) → store_from s (list ++ more) ≡ store_from (store_from s list) more }
    ensures next { (list : List (List ℕ)) (bytes : List ℕ) → store_after (list ++ bytes ∷ []) ≡ (apply_bytes (store_after list) bytes).0 }
    ensures answered { (list : List (List ℕ)) (bytes : List ℕ) → replies (list ++ bytes ∷ []) ≡ replies list ++ answer_after list bytes ∷ [] }
    ensures each { (list : List (List ℕ)) (i : ℕ) → slice_get (replies list) i ≡ reply list i }
    ensures stays { (list more : List (List ℕ)) (i : ℕ) → i < length list → reply (list ++ more) i ≡ reply list i }
{}
