//! Who takes part, as the head of a scenario says.

ghost use Rattle.std.specs.Prelude.{◌≡◌};
ghost use Rattle.nz_script.specs.Drafts as drafts;

use nz_base::{Actor, Cluster};

/// Who takes part, and how many requests a client may have open at once.
#[derive(Clone, Copy, Debug)]
pub struct Group {
    pub cluster: Cluster,
    pub proxies: u8,
    pub clients: u8,
    pub window: u8,
}

/// Whether the actor is of the group.
pub fn knows(group: &Group, actor: Actor) -> bool
    ensures { result ≡ drafts.knows group.now actor }
{
    match actor {
        Actor::Replica(number) => number < group.cluster.n(),
        Actor::Proxy(number) => number < group.proxies,
        Actor::Client(number) => number < group.clients,
    }
}
