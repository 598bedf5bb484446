//! Copies of answers.

ghost use Rattle.std.specs.Prelude.{◌≡◌, IfOk};

use nz_base::NoMemory;
use nz_store::Answer;
use std::alloc::Global;

/// The same answer, where there is memory for it.
pub fn copy_answer(alloc: Global, answer: &Answer) -> Result<Answer, NoMemory>
    ensures { IfOk result (λ copy. copy ≡ answer.now) }
{
    answer.copy(alloc).map_err(|_| NoMemory)
}
