//! A run on one thread.

ghost use Rattle.std.specs.Prelude.{◌≡◌, length, IfOk};
ghost use Rattle.nz_base.specs.Cluster.{replica_count};
ghost use Rattle.nz_machine.specs.journals.Journals.{group_in, run_in};
ghost use Rattle.nz_machine.specs.runs.Schedule.{InOrder, IsPlayable};
ghost use Rattle.nz_machine.specs.runs.World.{World};
ghost use Rattle.nz_replica.specs.Models.{AreCores};

use crate::played::Played;
use crate::playing::Playing;
use nz_base::{NoMemory, Scenario};
use std::alloc::Global;

/// A run on one thread, with its replicas.
pub fn run_alone(alloc: Global, scenario: &Scenario) -> Result<Played, NoMemory>
    requires { IsPlayable scenario.now }
    ensures scenario { IfOk result (λ played. played.journal.scenario ≡ scenario.now) }
    ensures in_order { IfOk result (λ played. InOrder scenario.now (run_in played.journal)) }
    ensures world { IfOk result (λ played. World (group_in played.journal) (run_in played.journal)) }
    ensures replicas { IfOk result (λ played. AreCores (group_in played.journal) (run_in played.journal) played.replicas.items) }
    ensures all { IfOk result (λ played. length played.replicas.items ≡ replica_count scenario.now.cluster) }
{
    let mut playing = Playing::new(alloc, scenario, true)?;
    'ticks: while playing.play_tick()? {}
    playing.into_played().ok_or(NoMemory)
}
