//! Playing a scenario, and writing a report of the run.
ghost use Rattle.std.specs.Prelude.{◌≡◌, ◌≤◌, ◌⊎◌, [], IfOk, IfErr, IfSome, OnOk, Some};
ghost use Rattle.nz_edge.specs.Faults.{Rose};
ghost use Rattle.nz_edge.specs.Exposed.{Gains};
ghost use Rattle.nz_machine.specs.journals.Journals.{run_in};
ghost use Rattle.nz_machine.specs.runs.Schedule.{IsPlayable, InOrder};
ghost use Rattle.nz_top.specs.declared.status.Status.TheVariants as status;
ghost use Rattle.nz_top.specs.declared.words.Play.{Play as PlayModel};
ghost use Rattle.nz_top.specs.declared.playing.NoScenario.TheVariants as whys;
ghost use Rattle.nz_top.specs.Calls.{CanPlay, Explains, Gives, HasPace, HasRead, HasRun, IsInput, IsPlayed, IsRun, ReadsAs};
ghost use Rattle.nz_top.specs.Bytes.{TakesPrefix};
ghost use Rattle.nz_top.specs.Reports.{printed_by, Admits};
ghost use Rattle.nz_top.specs.Words.{IsDrawable, IsInRange};
ghost use Rattle.nz_top.specs.Watching.{IsAnswered};

use crate::input::{Stop, read_input};
use crate::keeping::Keeping;
use crate::output::write_all;
use crate::status::{Outcome, Status};
use crate::watching::print_unkept;
use crate::words::{Origin, Play};
use nz_base::{Blob, Id, MAX_TEXT, NoMemory, Scenario};
use nz_edge::{Gate, Sink, Source};
use nz_run::{Played, run};
use nz_script::{Kind, ScriptFault, generate, read};
use std::alloc::Global;
use std::sync::Wait;
use std::thread::Threads;

/// An input is looked at up to this many bytes, one more than a scenario may have.
const MAX_INPUT: usize = MAX_TEXT + 1;

/// Why there is no scenario.
#[derive(Clone, Copy, Debug)]
pub enum NoScenario {
    /// The first bad line of the input, counted from 1.
    Refused { line: u32, kind: Kind },
    /// The first foul command of the scenario.
    Foul { id: Id },
    /// The source counted a fault.
    Fault,
    NoMemory,
}

/// Reads the scenario of the input.
fn scenario_of<S: Source>(alloc: Global, source: &mut S) -> Result<Scenario, NoScenario>
    ensures found { IfOk result (ReadsAs (S.left source.old)) }
    ensures playable { IfOk result IsPlayable }
    ensures end { OnOk result (IfSome (S.left source.new) (λ rest. rest ≡ [])) }
    ensures none { (play : PlayModel) → IsInput play.origin
        → IfErr result (Explains play (S.left source.old) (S.faults source.old) (S.faults source.new)) }
    ensures counts { S.faults source.old ≤ S.faults source.new }
{
    let bytes = match read_input(alloc, source, MAX_INPUT) {
        Ok(bytes) => bytes,
        Err(Stop::Fault) => return Err(NoScenario::Fault),
        Err(Stop::NoMemory) => return Err(NoScenario::NoMemory),
    };
    match read(alloc, &bytes) {
        Ok(scenario) => Ok(scenario),
        Err(ScriptFault::Refusal { line, kind }) => Err(NoScenario::Refused { line, kind }),
        Err(ScriptFault::NoMemory) => Err(NoScenario::NoMemory),
    }
}

/// The scenario of the origin.
fn scenario_from<S: Source>(
    alloc: Global,
    origin: Origin,
    source: &mut S,
) -> Result<Scenario, NoScenario>
    requires { IsDrawable origin }
    ensures found { IfOk result (Gives origin (S.left source.old)) }
    ensures playable { IfOk result IsPlayable }
    ensures read { OnOk result (HasRead origin (S.left source.old) (S.left source.new)) }
    ensures none { (play : PlayModel) → play.origin ≡ origin → IfErr result (Explains play (S.left source.old) (S.faults source.old) (S.faults source.new)) }
    ensures counts { S.faults source.old ≤ S.faults source.new }
{
    match origin {
        Origin::Input => scenario_of(alloc, source),
        Origin::Seed { seed, count } => match generate(alloc, seed, count) {
            Ok(scenario) => Ok(scenario),
            Err(_) => Err(NoScenario::NoMemory),
        },
    }
}

/// The scenario that is played, which the report admits.
pub fn scenario_for<S: Source>(
    alloc: Global,
    play: &Play<'_>,
    source: &mut S,
) -> Result<Scenario, NoScenario>
    requires { IsInRange play.now }
    ensures found { IfOk result (Gives play.now.origin (S.left source.old)) }
    ensures admitted { IfOk result (Admits play.now.report) }
    ensures playable { IfOk result IsPlayable }
    ensures read { OnOk result (HasRead play.now.origin (S.left source.old) (S.left source.new)) }
    ensures none { IfErr result (Explains play.now (S.left source.old) (S.faults source.old) (S.faults source.new)) }
    ensures complete { IfErr result (λ why. CanPlay (Some play.now) (S.left source.old) (S.faults source.old) (S.faults source.new) → why ≡ whys.NoMemory) }
    ensures counts { S.faults source.old ≤ S.faults source.new }
{
    let scenario = match scenario_from(alloc, play.origin, source) {
        Ok(scenario) => scenario,
        Err(why) => return Err(why),
    };
    match play.report.refused_request(&scenario) {
        Some(id) => Err(NoScenario::Foul { id }),
        None => Ok(scenario),
    }
}

/// Writes the bytes of a run that was played.
fn write_run<K: Keeping, O: Sink>(kept: K, bytes: &[u8], out: &mut O) -> Outcome<K>
    ensures played { (result.status ≡ status.Done) ⊎ (result.status ≡ status.WriteFault) }
    ensures done { result.status ≡ status.Done → Gains (O.taken out.old) (O.taken out.new) bytes.now }
    ensures write_fault { result.status ≡ status.WriteFault → Rose (O.faults out.old) (O.faults out.new) }
    ensures prefix { TakesPrefix (O.taken out.old) (O.taken out.new) bytes.now }
    ensures run { result.journal ≡ Some (K.journal kept) }
    ensures counts { O.faults out.old ≤ O.faults out.new }
{
    let status = match write_all(out, bytes) {
        Ok(()) => Status::Done,
        Err(_) => Status::WriteFault,
    };
    Outcome {
        status,
        journal: Some(kept),
    }
}

/// Plays the scenario with its records in memory. What is printed, and what is kept of the run.
fn print_kept<K: Keeping, R: Threads + Wait + Sync, G: Gate + Sync>(
    rt: &R,
    alloc: Global,
    play: &Play<'_>,
    scenario: &Scenario,
    gate: &G,
) -> Result<(Blob, K), NoMemory>
    requires called { IsInRange play.now }
    requires playable { IsPlayable scenario.now }
    ensures { IfOk result (λ printed. IsAnswered play.now scenario.now (K.journal printed.1) printed.0) }
{
    let Played { journal, replicas } = run(rt, alloc, scenario, play.workers, gate)?;
    let bytes = play.report.print(alloc, &journal, replicas.as_slice())?;
    Ok((bytes, K::of(journal)))
}

/// Where so many ticks have one request, hardly a tick has enough to do for several workers.
const TICKS_OF_A_REQUEST: u32 = 8;

/// Whether several workers may be sooner done than one. Either answer is right.
fn may_be_shared(scenario: &Scenario) -> bool {
    let mut requests: u32 = 0;
    for script in scenario.scripts.as_slice() {
        requests = requests.saturating_add(script.len());
    }
    scenario.ticks < requests.saturating_mul(TICKS_OF_A_REQUEST)
}

/// The same, by one worker and with no record in memory, where that serves the caller and is likely to do. None where it was
/// not done.
fn print_watched<K: Keeping>(
    alloc: Global,
    play: &Play<'_>,
    scenario: &Scenario,
) -> Result<Option<(Blob, K)>, NoMemory>
    requires playable { IsPlayable scenario.now }
    ensures { IfOk result (λ o. IfSome o (λ printed. IsAnswered play.now scenario.now (K.journal printed.1) printed.0)) }
{
    let is_shared = play.workers > 1 && may_be_shared(scenario);
    if K::wants_records() || is_shared || play.report.may_need_records(scenario) {
        return Ok(None);
    }
    let Some((bytes, unkept)) = print_unkept(alloc, &play.report, scenario)? else {
        return Ok(None);
    };
    match K::of_unkept(unkept) {
        Some(kept) => Ok(Some((bytes, kept))),
        None => Ok(None),
    }
}

/// Plays the scenario. What is printed, and what is kept of the run.
fn print_run<K: Keeping, R: Threads + Wait + Sync, G: Gate + Sync>(
    rt: &R,
    alloc: Global,
    play: &Play<'_>,
    scenario: &Scenario,
    gate: &G,
) -> Result<(Blob, K), NoMemory>
    requires called { IsInRange play.now }
    requires playable { IsPlayable scenario.now }
    ensures { IfOk result (λ printed. IsAnswered play.now scenario.now (K.journal printed.1) printed.0) }
{
    match print_watched(alloc, play, scenario)? {
        Some(printed) => Ok(printed),
        None => print_kept(rt, alloc, play, scenario, gate),
    }
}

/// Plays the scenario, and writes the report of the run.
pub fn answer<K: Keeping, O: Sink, R: Threads + Wait + Sync, G: Gate + Sync>(
    rt: &R,
    alloc: Global,
    play: &Play<'_>,
    scenario: &Scenario,
    out: &mut O,
    gate: &G,
) -> Outcome<K>
    requires called { IsInRange play.now }
    requires playable { IsPlayable scenario.now }
    ensures played { IsPlayed result.status }
    ensures done { ¬ Rose (O.faults out.old) (O.faults out.new) → (result.status ≡ status.Done) ⊎ (result.status ≡ status.NoMemory) }
    ensures write_fault { result.status ≡ status.WriteFault → Rose (O.faults out.old) (O.faults out.new) }
    ensures no_memory { result.status ≡ status.NoMemory → O.taken out.new ≡ O.taken out.old }
    ensures run { HasRun result.status result.journal }
    ensures scenario { IfSome result.journal (λ journal. journal.scenario ≡ scenario.now) }
    ensures is_run { IfSome result.journal IsRun }
    ensures in_order { play.now.workers ≡ 1 → IfSome result.journal (λ journal. InOrder journal.scenario (run_in journal)) }
    ensures pace { play.now.workers ≡ 1 → IfSome result.journal HasPace }
    ensures text { result.status ≡ status.Done → IfSome result.journal (λ journal. Gains (O.taken out.old) (O.taken out.new) (printed_by play.now.report journal)) }
    ensures prefix { IfSome result.journal (λ journal. TakesPrefix (O.taken out.old) (O.taken out.new) (printed_by play.now.report journal)) }
    ensures counts { O.faults out.old ≤ O.faults out.new }
{
    match print_run(rt, alloc, play, scenario, gate) {
        Ok((bytes, kept)) => write_run(kept, bytes.as_slice(), out),
        Err(_) => Outcome::without_run(Status::NoMemory),
    }
}
