//! Laws of the definitions, each the contract of a function with nothing to do.
ghost use Rattle.std.specs.Prelude.{ℕ, ◌≡◌, ◌↔◌, ◌+◌, ◌<◌, ◌≤◌, ◌⊎◌, IsTrue, Some};
ghost use Rattle.std.specs.declared.cmp.Ordering.TheVariants.{Less};
ghost use Rattle.nz_base.specs.declared.actor.Actor.{Actor};
ghost use Rattle.nz_base.specs.declared.key.Key.{Key};
ghost use Rattle.nz_base.specs.Actor.{HasAddress, address_of, actor_at, ActorBelow};
ghost use Rattle.nz_base.specs.Key.{KeyBelow, key_below};

use super::actor::Actor;

/// Keys are in one line: none is below itself, and of two that differ one is below the other.
pub fn keys_are_in_line()
    ensures test { (a b : Key) → IsTrue (key_below a b) ↔ KeyBelow a b }
    ensures irreflexive { (a : Key) → ¬ (KeyBelow a a) }
    ensures transitive { (a b c : Key) → KeyBelow a b → KeyBelow b c → KeyBelow a c }
    ensures total { (a b : Key) → KeyBelow a b ⊎ ((a ≡ b) ⊎ KeyBelow b a) }
{}

/// An address is that of one actor, and gives it back.
pub fn addresses_are_exact()
    ensures there { (actor : Actor) → HasAddress actor → actor_at (address_of actor) ≡ Some actor }
    ensures back { (address : ℕ) (actor : Actor) → actor_at address ≡ Some actor → HasAddress actor × (address_of actor ≡ address) }
    ensures distinct { (a b : Actor) → HasAddress a → HasAddress b → address_of a ≡ address_of b → a ≡ b }
{}

/// Actors are ordered by sort, then by number.
pub fn actors_are_in_line()
    ensures below { (a b : Actor) → (⟦<Actor as Ord>⟧.cmp a b ≡ Less) ↔ ActorBelow a b }
{}
