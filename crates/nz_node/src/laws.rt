//! What nodes have to do with deployments.

ghost use Rattle.std.specs.Prelude.{◌≡◌, ◌++◌, List};
ghost use Rattle.std.specs.List.{AllByRecursion};
ghost use Rattle.nz_base.specs.declared.actor.Actor.{Actor};
ghost use Rattle.nz_machine.specs.declared.event.Event.{Event};
ghost use Rattle.nz_machine.specs.declared.event.Record.{Record};
ghost use Rattle.nz_machine.specs.rules.State.{Group};
ghost use Rattle.nz_machine.specs.runs.Deployments.{IsItem, IsLane};
ghost use Rattle.nz_node.specs.Nodes.{frames_in, lane_after, node_after, node_at, output};

/// What a node takes and what it writes is a lane, as deployments are made of: the frames that it writes on events are
/// those of the lane's records, and it is as the lane leads it.
pub fn what_is_written_is_a_lane()
    ensures lane { (g : Group) (a : Actor) (lane : List Record) (events : List Event) → AllByRecursion IsItem events → IsLane g a lane
        → IsLane g a (lane_after g a lane events) }
    ensures output { (g : Group) (a : Actor) (lane : List Record) (events : List Event)
        → frames_in (lane_after g a lane events) ≡ frames_in lane ++ output g (node_at g a lane) events }
    ensures node { (g : Group) (a : Actor) (lane : List Record) (events : List Event)
        → node_at g a (lane_after g a lane events) ≡ node_after g (node_at g a lane) events }
{}
