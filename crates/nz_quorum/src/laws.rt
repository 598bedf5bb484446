//! Laws of what replies decide, over all lists of replies.

ghost use Rattle.std.specs.Prelude.{◌≡◌, ◌≢◌, ℕ, List, Some, ◌↔◌};
ghost use Rattle.nz_msg.specs.declared.message.Path.TheVariants.{Fast, Slow};
ghost use Rattle.nz_machine.specs.declared.reply.Reply.{Reply};
ghost use Rattle.nz_machine.specs.rules.Quorums.{Chosen, decision};
ghost use Rattle.nz_quorum.specs.Choices.{HasQuorum, IsFirstOfLeastView};

/// A request is decided fast exactly where some noted reply has a fast quorum.
pub fn fast_where_there_is_one()
    ensures { (f : ℕ) (replies : List Reply)
        → ((chosen : Chosen) × (decision f replies ≡ Some chosen) × (chosen.path ≡ Fast)) ↔ HasQuorum Fast f replies }
{}

/// It is decided slowly exactly where none has one, and some has a slow quorum.
pub fn slow_where_none_is_fast()
    ensures { (f : ℕ) (replies : List Reply)
        → ((chosen : Chosen) × (decision f replies ≡ Some chosen) × (chosen.path ≡ Slow)) ↔ (¬ HasQuorum Fast f replies × HasQuorum Slow f replies) }
{}

/// The reply that decides was noted, and of those that have its quorum it is the first of the least view.
pub fn chosen_is_first_of_least_view()
    ensures { (f : ℕ) (replies : List Reply) (chosen : Chosen) → decision f replies ≡ Some chosen
        → IsFirstOfLeastView chosen.path f replies chosen.reply }
{}
