//! The search for commands that locks do not allow.
ghost use Rattle.std.specs.Prelude.{◌≡◌, ◌+◌, ◌<◌, ◌^◌, false, IfSome, IfNone, IsNone};
ghost use Rattle.std.specs.List.{list_any};
ghost use Rattle.nz_locks.specs.Clean.{is_foul_request, IsCleanScenario, IsFirstFoul, IsFirstFoulPlace};

use crate::uses::is_foul;
use nz_base::{Id, RequestList, Scenario};

/// The place of the first foul request of a client's script.
fn first_foul_place(client: u32, script: &RequestList) -> Option<u32>
    ensures found { IfSome result (IsFirstFoulPlace client script.now) }
    ensures within { IfSome result (λ place. place + 1 < 2 ^ 32) }
    ensures none { IsNone result → list_any (is_foul_request client) script.now ≡ false }
{
    for place in 0..script.len() {
        if is_foul(client, script.get(place).command.as_slice()) {
            return Some(place);
        }
    }
    None
}

/// The first foul request of the least client that has one, counted from 1. Takes no memory.
pub fn first_foul(scenario: &Scenario) -> Option<Id>
    ensures found { IfSome result (IsFirstFoul scenario.now) }
    ensures none { IfNone result (IsCleanScenario scenario.now) }
{
    for client in 0..scenario.scripts.len() {
        if let Some(place) = first_foul_place(client, scenario.scripts.get(client)) {
            return Some(Id {
                client,
                num: place + 1,
            });
        }
    }
    None
}
