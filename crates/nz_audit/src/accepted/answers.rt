//! AcceptedAt answers, and where they come from.

ghost use Rattle.std.specs.Prelude.{◌≡◌};
ghost use Rattle.nz_audit.specs.Prefixes.{first_longest};

use nz_base::Id;

/// Where an answer comes from: the reply with which its proxy decided.
#[derive(Clone, Copy, Debug)]
pub struct Source {
    /// The replica that sent the reply.
    pub replica: u8,
    /// How many records there were with the one that sent the reply first.
    pub records: u32,
}

/// An answer that was accepted.
#[derive(Clone, Copy, Debug)]
pub struct AcceptedAt {
    /// The place of the record that accepts it.
    pub place: u32,
    pub id: Id,
    /// How many requests were sent before it was accepted. Its prefix has no more entries.
    pub sent: u32,
}

/// An accepted answer, and where it comes from.
#[derive(Clone, Copy, Debug)]
pub struct Traced {
    pub accepted: AcceptedAt,
    pub source: Source,
}

/// An accepted answer whose prefix was counted.
#[derive(Clone, Copy, Debug)]
pub struct Counted {
    pub answer: Traced,
    /// How many entries the replica's log had at the source, up to and with that of the request.
    pub entries: u32,
}

/// The one with more entries, and of equally long ones the one that was accepted first.
pub fn longer(best: Option<Counted>, next: Counted) -> Counted
    ensures { result ≡ first_longest best next }
{
    let Some(best) = best else {
        return next;
    };
    if best.entries < next.entries {
        return next;
    }
    if best.entries == next.entries && next.answer.accepted.place < best.answer.accepted.place {
        return next;
    }
    best
}
