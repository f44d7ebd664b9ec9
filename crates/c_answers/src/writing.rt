// What writing a file or a sheet answers, for C.
ghost use Rattle.std.specs.Prelude.{◌≡◌};
ghost use Rattle.c_answers.specs.Writing.{writing_status, writing_left};

use crate::put::put;
use project::answers::{NO_TASK, Refusal};

// Two places: the task named and the length written (0 after a refusal).
pub fn tell_writing(answer: &mut [usize], told: Result<usize, Refusal>) -> u8
    ensures { (result ≡ writing_status answer.old told) × (answer.new ≡ writing_left answer.old told) }
{
    match told {
        Ok(length) => put(answer, 0, [usize::from(NO_TASK), length]),
        Err(refused) => put(
            answer,
            refused.check.number(),
            [usize::from(refused.task), 0],
        ),
    }
}
