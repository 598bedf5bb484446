//! What the networks of one thread and of several have in common: the tick and the calendar.

ghost use Rattle.std.specs.Prelude.{◌≡◌, ◌<◌, ◌≤◌, ℕ, List};
ghost use Rattle.std.specs.Prelude.{IfOk, OnErr};
ghost use Rattle.nz_machine.specs.runs.Schedule as schedule;
ghost use Rattle.nz_fabric.specs.schedule.Numbered.{items_under};

use crate::schedule::calendar::Calendar;
use crate::schedule::due::{calls_of, due_items};
use crate::schedule::numbered::Numbered;
use nz_base::{NoMemory, Scenario};
use nz_machine::Item;
use std::alloc::Global;

/// The tick that is run, and what is to come after it.
#[derive(Drop)]
pub struct Ticks {
    pub alloc: Global,
    pub scenario: Scenario,
    /// What is asked of actors in each tick, in the order of the fault lines.
    pub calls: Numbered<Item>,
    pub tick: u32,
    pub calendar: Calendar,
    pub marked: bool,
    ghost asked: { (tick : ℕ) → items_under calls tick ≡ schedule.calls tick 0 scenario.faults },
}

impl Ticks {
    ghost use Rattle.nz_base.specs.declared.limits.TheConstants.{MAX_TICKS};
    ghost use Rattle.nz_machine.specs.runs.Schedule.{Posted};
    ghost use Rattle.nz_fabric.specs.schedule.Calendars.{Represents};
    ghost use Rattle.nz_fabric.specs.alone.States.{HasBegun, HasNotBegun};

    /// A run that has not begun.
    pub fn new(alloc: Global, scenario: Scenario) -> Result<Ticks, NoMemory>
        ensures { IfOk result (HasNotBegun scenario) }
    {
        let calls = calls_of(alloc, scenario.faults.as_slice())?;
        let calendar = Calendar::new(alloc, &scenario.faults);
        Ok(Ticks {
            alloc,
            scenario,
            calls,
            tick: 0,
            calendar,
            marked: false,
        })
    }

    /// Begins the next tick, once what this one sent is posted, and gives what is due in it, in the memory of items that are
    /// gone. All memory is taken before the calendar changes.
    pub fn begin(&mut self, memory: Vec<Item>) -> Result<Vec<Item>, NoMemory>
        requires more { self.old.tick < self.old.scenario.ticks }
        requires ticks { self.old.scenario.ticks ≤ MAX_TICKS }
        ensures ok { (L : List Posted) → Represents self.old.scenario L self.old.tick self.old.calendar
            → IfOk result (λ items. HasBegun self.old.scenario self.old.tick L self.new items.items) }
        ensures err { OnErr result (self.new ≡ self.old) }
    {
        let tick = self.tick + 1;
        let coming = self.calendar.due(tick);
        let asked = self.calls.under(u64::from(tick));
        let mut items = due_items(self.alloc, memory, &self.scenario, asked, tick, coming)?;
        self.calendar.move_to(tick, &mut items)?;
        self.tick = tick;
        self.marked = false;
        Ok(items)
    }
}
