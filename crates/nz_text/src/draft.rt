//! What was read of a text so far.

ghost use Rattle.std.specs.Prelude.{◌≡◌, IfOk};
ghost use Rattle.nz_text.specs.declared.line.Line.TheVariants as line;
ghost use Rattle.nz_text.specs.Reading.{stage_rank, empty_draft, with_line, draft_after_bytes, draft_if_good};

use super::line::{Line, line_of};
use super::printed::Printed;
use nz_base::{Id, IdList, List, NoMemory};
use nz_machine::{ClientEvent, Executed, History};
use std::alloc::Global;

/// How far a text has come: which lines it has had.
#[derive(Clone, Copy, Debug)]
pub enum Stage {
    Events,
    Opens,
    History,
    Ended,
}

/// What was read of a text.
#[derive(Drop)]
pub struct Draft {
    pub stage: Stage,
    pub printed: Printed,
}

impl Stage {
    pub fn rank(self) -> u8
        ensures { result ≡ stage_rank self }
    {
        match self {
            Stage::Events => 0,
            Stage::Opens => 1,
            Stage::History => 2,
            Stage::Ended => 3,
        }
    }
}

impl Draft {
    /// Before the first line.
    pub fn new(alloc: Global) -> Draft
        ensures { result ≡ empty_draft }
    {
        Draft {
            stage: Stage::Events,
            printed: Printed {
                events: List::new(alloc),
                unanswered: IdList::new(alloc),
                history: History::new(alloc),
            },
        }
    }

    fn take_event(&mut self, event: ClientEvent) -> Result<bool, NoMemory>
        ensures { IfOk result (λ good. with_line self.old (line.Event event) ≡ draft_if_good good self.new) }
    {
        if self.stage.rank() != 0 {
            return Ok(false);
        }
        self.printed.events.push(event)?;
        Ok(true)
    }

    fn take_open(&mut self, id: Id) -> Result<bool, NoMemory>
        ensures { IfOk result (λ good. with_line self.old (line.Open id) ≡ draft_if_good good self.new) }
    {
        if self.stage.rank() > 1 {
            return Ok(false);
        }
        self.stage = Stage::Opens;
        self.printed.unanswered.push(id)?;
        Ok(true)
    }

    fn take_executed(&mut self, place: u64, executed: Executed) -> Result<bool, NoMemory>
        ensures { IfOk result (λ good. with_line self.old (line.At place executed) ≡ draft_if_good good self.new) }
    {
        let next = u64::from(self.printed.history.len()) + 1;
        if self.stage.rank() > 2 || place != next {
            return Ok(false);
        }
        self.stage = Stage::History;
        self.printed.history.push(executed)?;
        Ok(true)
    }

    fn take_end(&mut self) -> bool
        ensures { with_line self.old line.End ≡ draft_if_good result self.new }
    {
        if self.stage.rank() > 2 {
            return false;
        }
        self.stage = Stage::Ended;
        true
    }

    fn take(&mut self, next: Line) -> Result<bool, NoMemory>
        ensures { IfOk result (λ good. with_line self.old next ≡ draft_if_good good self.new) }
    {
        match next {
            Line::Event(event) => self.take_event(event),
            Line::Open(id) => self.take_open(id),
            Line::At(place, executed) => self.take_executed(place, executed),
            Line::End => Ok(self.take_end()),
        }
    }

    /// Takes a line in, if the bytes are one that may come here.
    #[tactic(auto, unfolding(crate::specs::Reading::draft_after_bytes))]
    pub fn step(&mut self, alloc: Global, bytes: &[u8]) -> Result<bool, NoMemory>
        ensures { IfOk result (λ good. draft_after_bytes self.old bytes.now ≡ draft_if_good good self.new) }
    {
        match line_of(alloc, bytes)? {
            None => Ok(false),
            Some(line) => self.take(line),
        }
    }
}
