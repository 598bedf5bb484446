//! What a proxy knows of a request.

ghost use Rattle.std.specs.Prelude.{◌≡◌, ℕ, IfOk, OnOk};
ghost use Rattle.nz_proxy.specs.Standings.{IsNotable, IsFitStanding, HasFitAnswer, standing_with_reply, answer_after_reply};

use nz_base::NoMemory;
use nz_machine::{Reply, copy_answer};
use nz_msg::Path;
use nz_quorum::Tally;
use nz_store::Answer;
use std::alloc::Global;

/// What a proxy keeps of a request: the replies so far, or what they decided, and how.
#[derive(Drop)]
pub enum Standing {
    Open(Tally),
    Decided { answer: Answer, path: Path },
}

impl Standing {
    /// Notes a reply to an open request. Where the replies decide now, gives the answer for the client.
    pub fn note(&mut self, alloc: Global, reply: Reply) -> Result<Option<(Answer, Path)>, NoMemory>
        requires { IsNotable self.old reply }
        ensures standing { OnOk result (self.new ≡ standing_with_reply self.old reply) }
        ensures answer { IfOk result (λ answer. answer ≡ answer_after_reply self.old reply) }
        ensures fit { (f : ℕ) → HasFitAnswer reply → IsFitStanding f self.old → IsFitStanding f self.new }
    {
        match self {
            Standing::Decided { .. } => Ok(None),
            Standing::Open(tally) => {
                tally.note(reply)?;
                match tally.decide() {
                    None => Ok(None),
                    Some(decision) => {
                        let path = decision.path;
                        let answer = copy_answer(alloc, decision.answer)?;
                        let given = copy_answer(alloc, decision.answer)?;
                        *self = Standing::Decided { answer, path };
                        Ok(Some((given, path)))
                    }
                }
            }
        }
    }
}
