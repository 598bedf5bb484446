//! Replicas, proxies and clients, their order and their addresses.

ghost use Rattle.std.specs.Prelude.{◌≡◌, ◌≢◌, ◌↔◌, IsTrue, IfSome, IfNone};

use super::limits::{MAX_CLIENT, MAX_PROXY, MAX_REPLICA};

/// One that takes part in a run, by its number from 0. They are ordered: replicas, proxies,
/// clients, each by number.
#[derive(Clone, Copy, Debug, PartialEq, Eq, PartialOrd, Ord, Hash)]
pub enum Actor {
    Replica(u8),
    Proxy(u8),
    Client(u8),
}

impl Actor {
    ghost use Rattle.nz_base.specs.Actor.{actor_eq, HasAddress, address_of, actor_at};

    /// Whether this is the other actor.
    pub fn is(&self, other: &Actor) -> bool
        ensures value { result ≡ actor_eq self.now other.now }
        ensures same { IsTrue result ↔ (self.now ≡ other.now) }
    {
        self == other
    }

    /// Whether frames can name this actor.
    pub fn has_address(&self) -> bool
        ensures { IsTrue result ↔ HasAddress self.now }
    {
        match self {
            Actor::Replica(number) => *number <= MAX_REPLICA,
            Actor::Proxy(number) => *number <= MAX_PROXY,
            Actor::Client(number) => *number <= MAX_CLIENT,
        }
    }

    /// The number by which frames name this actor.
    pub fn address(&self) -> u16
        requires { HasAddress self.now }
        ensures { result ≡ address_of self.now }
    {
        match self {
            Actor::Replica(number) => u16::from(*number),
            Actor::Proxy(number) => 16 + u16::from(*number),
            Actor::Client(number) => 64 + u16::from(*number),
        }
    }

    /// The actor whom frames name so, if there is one.
    pub fn from_address(address: u16) -> Option<Actor>
        ensures value { result ≡ actor_at address }
        ensures somebody { IfSome result (λ actor. HasAddress actor × (address_of actor ≡ address)) }
        ensures nobody { IfNone result ((actor : Actor) → HasAddress actor → address_of actor ≢ address) }
    {
        match address {
            0..=8 => Some(Actor::Replica(address as u8)),
            16..=23 => Some(Actor::Proxy((address - 16) as u8)),
            64..=127 => Some(Actor::Client((address - 64) as u8)),
            _ => None,
        }
    }
}
