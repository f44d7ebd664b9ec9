// What Microseconds answers, for C.
ghost use Rattle.std.specs.Prelude.{◌≡◌};
ghost use Rattle.c_answers.specs.Timing.{timing_status, timing_left};

use crate::put::put;
use microseconds::Time;
use project::answers::{NO_TASK, Refusal};

// Three places: the task named, the whole microseconds and the remainder (0 and 0 after a refusal).
pub fn tell_timing(answer: &mut [u32], told: Result<Time, Refusal>) -> u8
    ensures { (result ≡ timing_status answer.old told) × (answer.new ≡ timing_left answer.old told) }
{
    match told {
        Ok(Time { whole, remainder }) => put(answer, 0, [u32::from(NO_TASK), whole, remainder]),
        Err(refused) => put(
            answer,
            refused.check.number(),
            [u32::from(refused.task), 0, 0],
        ),
    }
}
