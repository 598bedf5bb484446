//! What a proxy of a quiet run does in a tick.

ghost use Rattle.std.specs.Prelude.{◌++◌, ◌≡◌, ◌≤◌, ◌<◌, Some, None, false, [], ℕ, List, length};
ghost use Rattle.std.specs.List.{AllByRecursion};
ghost use Rattle.nz_base.specs.Cluster.{replica_count};
ghost use Rattle.nz_base.specs.declared.actor.Actor.{Actor};
ghost use Rattle.nz_base.specs.declared.actor.Actor.TheVariants.{Replica, Proxy};
ghost use Rattle.nz_base.specs.declared.key.Id.{Id};
ghost use Rattle.nz_base.specs.declared.key.Entry.{Entry};
ghost use Rattle.nz_base.specs.declared.limits.TheConstants.{MAX_CLOCK};
ghost use Rattle.nz_store.specs.declared.command.Answer.{Answer};
ghost use Rattle.nz_msg.specs.declared.message.FastReplyBody.{FastReplyBody};
ghost use Rattle.nz_msg.specs.declared.message.Message.TheVariants.{FastReply};
ghost use Rattle.nz_machine.specs.declared.event.Record.{Record};
ghost use Rattle.nz_machine.specs.declared.reply.Reply.{Reply};
ghost use Rattle.nz_machine.specs.rules.State.{ProxyData, Open, Group, Out};
ghost use Rattle.nz_machine.specs.rules.Proxies.{standing_of};
ghost use Rattle.nz_machine.specs.rules.Quorums.{decision};
ghost use Rattle.nz_machine.specs.rules.Step.{tick_step};
ghost use Rattle.nz_machine.specs.runs.World.{state_after, Has};
ghost use Rattle.nz_window.specs.Samples.{bound_of};
ghost use Rattle.nz_quiet.specs.Folds.{heard_by, state_heard, outs_heard};
ghost use Rattle.nz_quiet.specs.Words.{Word};
ghost use Rattle.nz_quiet.specs.Replies.{reply_of, IsReply, IsFastChoice};
ghost use Rattle.nz_quiet.specs.Invariant.{IsQuietAt};
ghost use Rattle.nz_quiet.specs.ProxyTicks.{AreTicks, IsBound, Said, said_of, MayCome, IsProxyAfter, IsAnsweredFast};

/// A proxy all of whose delays were one tick has one of two bounds on the delay.
pub fn bounds_are_two()
    ensures { (window : List (List ℕ)) → AllByRecursion AreTicks window → 1 ≤ length window → IsBound (bound_of window) }
{}

/// The replies of all replicas, all equal, decide a request on the fast path, with the leader's answer.
pub fn replies_decide()
    ensures { (f : ℕ) (digest vector : List ℕ) (answer : Answer) (rs : List Reply) → 1 ≤ f → AllByRecursion (IsReply digest vector answer) rs
        → ((r : ℕ) → r < replica_count f → Has rs (reply_of digest vector answer r)) → IsFastChoice answer (decision f rs) }
{}

/// What a proxy that is up knows and sends after its clock and what it may hear in a tick.
pub fn proxies_do_their_part()
    ensures { (g : Group) (p : ℕ) (said : Said) (s : ProxyData) (clock : ℕ) (ws : List Word) → 1 ≤ g.f → s.is_down ≡ false → clock ≤ MAX_CLOCK
        → length s.samples ≡ replica_count g.f → AllByRecursion AreTicks s.samples → AllByRecursion (MayCome said s) ws
        → let t = tick_step g (Proxy p) s clock in
        IsProxyAfter g.f said s clock ws (state_heard g (Proxy p) t.0 ws) (t.1 ++ outs_heard g (Proxy p) t.0 ws) }
{}

/// The fast replies of all replicas to an open request decide it on the fast path in the tick in which they come, and the
/// answer is sent.
pub fn requests_are_answered()
    ensures { (f : ℕ) (said : Said) (s t : ProxyData) (clock : ℕ) (ws : List Word) (outs : List Out) (id : Id) → 1 ≤ f
        → IsProxyAfter f said s clock ws t outs → standing_of s id ≡ Some (Open [])
        → ((r : ℕ) → r < replica_count f → (b : FastReplyBody) × (Has ws (Replica r, FastReply b) × (b.id ≡ id)))
        → IsAnsweredFast said id t outs }
{}

/// What is in flight to a proxy of a quiet run is what it may hear.
pub fn proxies_hear_what_they_may()
    ensures { (g : Group) (t : ℕ) (L E : List Entry) (flight : List (Actor × Out)) (J : List Record) → IsQuietAt g t L E flight J
        → (p : ℕ) → AllByRecursion (MayCome (said_of g L) (state_after g (Proxy p) J)) (heard_by (Proxy p) flight) }
{}
