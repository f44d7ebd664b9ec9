// What reading a file answers, for C.
ghost use Rattle.std.specs.Prelude.{◌≡◌};
ghost use Rattle.c_answers.specs.Reading.{reading_status, reading_left};

use crate::put::put;
use project::answers::{Accepted, NO_TASK, Refusal};

// Three places: the task named, n and t (0 and 0 after a refusal).
pub fn tell_reading(answer: &mut [u8], told: Result<Accepted, Refusal>) -> u8
    ensures { (result ≡ reading_status answer.old told) × (answer.new ≡ reading_left answer.old told) }
{
    match told {
        Ok(Accepted { n, t }) => put(answer, 0, [NO_TASK, n, t]),
        Err(refused) => put(answer, refused.check.number(), [refused.task, 0, 0]),
    }
}
