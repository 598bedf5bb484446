//! The top call.
ghost use Rattle.std.specs.Prelude.{◌≡◌, ◌≤◌, ◌⊎◌, ◌↔◌, None, IfSome, OnSome, IsSome, codes};
ghost use Rattle.nz_edge.specs.Faults.{Rose};
ghost use Rattle.nz_edge.specs.Exposed.{Gains};
ghost use Rattle.nz_machine.specs.runs.Events.{events};
ghost use Rattle.nz_machine.specs.runs.History.{history};
ghost use Rattle.nz_machine.specs.journals.Journals.{group_in, run_in};
ghost use Rattle.nz_machine.specs.runs.OneHistory.{Lin, NoCollision};
ghost use Rattle.nz_machine.specs.runs.Schedule.{InOrder, Scheduled};
ghost use Rattle.nz_machine.specs.runs.World.{World};
ghost use Rattle.nz_top.specs.declared.status.Status.TheVariants as status;
ghost use Rattle.nz_locks.specs.Clean.{IsCleanScenario};
ghost use Rattle.nz_top.specs.Calls.{CanPlay, Excludes, Gives, HasPace, HasRead, HasRunOf, IsAdmitted, IsRefused, IsWritten};
ghost use Rattle.nz_top.specs.Calls.{Reads, ReadsInadmissible, ReadsSource, TakesMemory, WritesWhy, WritesLine, fixed_output, output_of};
ghost use Rattle.nz_top.specs.Bytes.{TakesPrefix};
ghost use Rattle.nz_top.specs.Checking.{IsJudged};
ghost use Rattle.nz_top.specs.Words.{command_of_words, play_of_words, IsAlone, IsCheck};

use crate::checking::check_input;
use crate::fixed::{write_drawn, write_fixed};
use crate::help::help_lines;
use crate::keeping::Keeping;
use crate::playing::{NoScenario, answer, scenario_for};
use crate::refusal::{refuse, write_bad_line, write_foul};
use crate::status::{Outcome, Status};
use crate::words::{Command, Words};
use nz_edge::{Gate, Sink, Source};
use std::alloc::Global;
use std::sync::Wait;
use std::thread::Threads;

/// What the program does with the words after its name: `run`, `trace`, `story`, `locks`, `peek` and `pace` read a scenario
/// from the source, play it, and write a report of the run to the sink; `gen` plays one that is drawn, and writes its
/// summary; `scenario` writes that one; `check` judges the text that it reads; `help` writes a line for each command. Each
/// worker calls the gate before each batch. The caller chooses by `K` whether the journal comes back as data. May wait.
pub fn nezha<K: Keeping, R: Threads + Wait + Sync, S: Source, O: Sink, G: Gate + Sync>(
    rt: &R,
    alloc: Global,
    words: &Words,
    source: &mut S,
    out: &mut O,
    gate: &G,
) -> Outcome<K>
    // When each answer comes.
    ensures usage { (result.status ≡ status.Usage) ↔ (command_of_words words.now ≡ None) }
    ensures reading { (result.status ≡ status.BadScenario) ⊎ (result.status ≡ status.ReadFault) → ReadsSource (command_of_words words.now) }
    ensures refused { Reads (play_of_words words.now) → ¬ Rose (S.faults source.old) (S.faults source.new) → IsRefused (S.left source.old)
        → (result.status ≡ status.BadScenario) ⊎ (result.status ≡ status.NoMemory) }
    ensures inadmissible { ¬ Rose (S.faults source.old) (S.faults source.new) → ReadsInadmissible (play_of_words words.now) (S.left source.old)
        → (result.status ≡ status.BadScenario) ⊎ (result.status ≡ status.NoMemory) }
    ensures read_fault { result.status ≡ status.ReadFault → Rose (S.faults source.old) (S.faults source.new) }
    ensures write_fault { result.status ≡ status.WriteFault → Rose (O.faults out.old) (O.faults out.new) }
    ensures no_memory { result.status ≡ status.NoMemory → TakesMemory (command_of_words words.now) }
    ensures complete { CanPlay (play_of_words words.now) (S.left source.old) (S.faults source.old) (S.faults source.new)
        → ¬ Rose (O.faults out.old) (O.faults out.new)
        → ((result.status ≡ status.Done)
        × IfSome result.journal (λ journal. Gains (O.taken out.old) (O.taken out.new)
        (output_of (play_of_words words.now) journal))) ⊎ (result.status ≡ status.NoMemory) }
    ensures rejected { result.status ≡ status.Rejected → IsCheck (command_of_words words.now) }
    ensures check_complete { IsCheck (command_of_words words.now) → ¬ Rose (S.faults source.old) (S.faults source.new) → ¬ Rose (O.faults out.old) (O.faults out.new)
        → ((result.status ≡ status.Done) ⊎ (result.status ≡ status.Rejected)) ⊎ (result.status ≡ status.NoMemory) }

    // The run, and the scenario that it is a run of.
    ensures run { HasRunOf (play_of_words words.now) result.status result.journal }
    ensures scenario { IfSome result.journal (λ journal. IfSome (play_of_words words.now) (λ play. Gives play.origin (S.left source.old) journal.scenario)) }
    ensures admitted { IfSome result.journal (λ journal. IsAdmitted (play_of_words words.now) journal.scenario) }
    ensures whole_input { OnSome result.journal (IfSome (play_of_words words.now) (λ play. HasRead play.origin (S.left source.old) (S.left source.new))) }
    ensures world { IfSome result.journal (λ journal. World (group_in journal) (run_in journal)) }
    ensures scheduled { IfSome result.journal (λ journal. Scheduled journal.scenario (run_in journal)) }
    ensures in_order { IsAlone (play_of_words words.now) → IfSome result.journal (λ journal. InOrder journal.scenario (run_in journal)) }
    ensures pace { IsAlone (play_of_words words.now) → IfSome result.journal HasPace }
    ensures one_history { IfSome result.journal (λ journal. NoCollision (group_in journal) (run_in journal)
        → Lin (events (group_in journal) (run_in journal)) (history (group_in journal) (run_in journal))) }

    ensures locks { IfSome result.journal (λ journal. IsCleanScenario journal.scenario → Excludes journal) }

    // What is written.
    ensures usage_line { result.status ≡ status.Usage
        → WritesLine (codes "refused words\n") (O.taken out.old) (O.taken out.new) (O.faults out.old) (O.faults out.new) }
    ensures bad_scenario { result.status ≡ status.BadScenario
        → WritesWhy (play_of_words words.now) (S.left source.old) (O.taken out.old) (O.taken out.new) (O.faults out.old) (O.faults out.new) }
    ensures text { result.status ≡ status.Done
        → IfSome result.journal (λ journal. Gains (O.taken out.old) (O.taken out.new) (output_of (play_of_words words.now) journal)) }
    ensures prefix { IfSome result.journal (λ journal. TakesPrefix (O.taken out.old) (O.taken out.new) (output_of (play_of_words words.now) journal)) }
    ensures verdict { IsCheck (command_of_words words.now)
        → IsJudged (S.left source.old) (O.taken out.old) (O.taken out.new) (O.faults out.old) (O.faults out.new) result.status
        ⊎ ((result.status ≡ status.ReadFault) ⊎ (result.status ≡ status.NoMemory)) }
    ensures fixed { IfSome (fixed_output (command_of_words words.now)) (λ bytes.
        IsWritten bytes result.status (O.taken out.old) (O.taken out.new) (O.faults out.old) (O.faults out.new)) }
    ensures unread { IsSome (fixed_output (command_of_words words.now)) → source.new ≡ source.old }
    ensures unwritten { (result.status ≡ status.ReadFault) ⊎ (result.status ≡ status.NoMemory) → O.taken out.new ≡ O.taken out.old }
    ensures counts { (S.faults source.old ≤ S.faults source.new) × (O.faults out.old ≤ O.faults out.new) }
{
    let Some(command) = words.command() else {
        refuse(out, b"refused words\n");
        return Outcome::without_run(Status::Usage);
    };
    match command {
        Command::Play(play) => match scenario_for(alloc, &play, source) {
            Ok(scenario) => answer(rt, alloc, &play, &scenario, out, gate),
            Err(NoScenario::Refused { line, kind }) => {
                write_bad_line(out, line, kind);
                Outcome::without_run(Status::BadScenario)
            }
            Err(NoScenario::Foul { id }) => {
                write_foul(out, id);
                Outcome::without_run(Status::BadScenario)
            }
            Err(NoScenario::Fault) => Outcome::without_run(Status::ReadFault),
            Err(NoScenario::NoMemory) => Outcome::without_run(Status::NoMemory),
        },
        Command::Scenario { seed, count } => {
            Outcome::without_run(write_drawn(alloc, seed, count, out))
        }
        Command::Check => Outcome::without_run(check_input(alloc, source, out)),
        Command::Help => Outcome::without_run(write_fixed(out, help_lines().as_bytes())),
    }
}
