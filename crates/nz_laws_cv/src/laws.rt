//! The laws of knowledge and views: of every run of the machine, and of every abstract run that has the ground.

ghost use Rattle.std.specs.Prelude.{ℕ, ◌<◌, List, ◌∷◌, IsTrue};
ghost use Rattle.nz_base.specs.Moments.{At};
ghost use Rattle.nz_machine.specs.declared.event.Record.{Record};
ghost use Rattle.nz_machine.specs.rules.State.{Group};
ghost use Rattle.nz_machine.specs.runs.World.{World};
ghost use Rattle.nz_machine.specs.runs.Knowledge.{Knowledge};
ghost use Rattle.nz_machine.specs.runs.Incarnations.{completes};
ghost use Rattle.nz_machine.specs.runs.Begun.{begins, Views};
ghost use Rattle.nz_laws_cv.specs.Notions.{IsIn};
ghost use Rattle.nz_laws_cv.specs.Ground.{Ground, StaysUp};
ghost use Rattle.nz_laws_cv.specs.Views.{HasViews};
ghost use Rattle.nz_laws_cv.specs.Tests.{Tests, notions};
ghost use Rattle.nz_laws_cv.specs.Members.{IsAnswered, KnownSince, IsReportedTo};
ghost use Rattle.nz_laws_cv.specs.Example as example;

/// In every run of the machine the own counters of a replica's completed rejoins rise, and each replica whose answer
/// a completed rejoin used knows the counter of that whenever it is up from its answer on, in whatever incarnation.
pub fn knowledge()
    ensures rejoins { (g : Group) (J : List Record) → World g J → Knowledge g J }
    ensures since { (g : Group) (J : List Record) → World g J → KnownSince g J }
{}

/// In every run of the machine each completed rejoin used answers of at least f + 1 different others, each of which
/// was sent.
pub fn rejoins_are_answered()
    ensures { (g : Group) (J C : List Record) (m : ℕ) → World g J → At J C → IsTrue (completes g m C) → IsAnswered g m C }
{}

/// In every run of the machine each view above 0 begins when its leader has collected the reports of exactly f different
/// others, each of which was sent.
pub fn begins_are_reported()
    ensures { (g : Group) (J B : List Record) (v : ℕ) → World g J → At J B → 0 < v → IsTrue (begins g v B) → IsReportedTo g v B }
{}

/// In every run of the machine each view begins at most once, from reports of replicas that later rejoin
/// in that view or above, and no later incarnation of its leader leads it.
pub fn views()
    ensures { (g : Group) (J : List Record) → World g J → Views g J }
{}

/// In a run with the ground, own counters rise from incarnation to incarnation, what was answered stays
/// known, a rejoin ends in no lower view than those of before, and each view begins once and is led in
/// one incarnation.
pub fn views_follow<R>()
    ensures { (t : Tests R) (J : List R) → Ground (notions t) J → HasViews (notions t) J }
{}

/// A leader was up, in the same incarnation, before each record that finds it Normal in its view.
pub fn leaders_do_not_rejoin<R>()
    ensures { (t : Tests R) (J : List R) (v : ℕ) (r : R) (K : List R) → Ground (notions t) J → At J (r ∷ K)
        → IsIn (notions t) (t.leader v) v (r ∷ K) → StaysUp (notions t) (t.leader v) K (r ∷ K) }
{}

/// The ground contradicts nothing: a run in which a replica crashes, rejoins and begins a view has it.
pub fn a_run_has_the_ground()
    ensures { Ground (notions example.tests) example.run }
{}
