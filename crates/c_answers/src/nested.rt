// What Nested replay answers, for C.
ghost use Rattle.std.specs.Prelude.{◌≡◌};
ghost use Rattle.c_answers.specs.Nested.{nested_replaying_status, nested_replaying_left};

use crate::put::put;
use project::answers::{NO_TASK, Refusal};

// Two places: the task named and the total (0 after a refusal).
pub fn tell_nested(answer: &mut [u64], told: Result<u64, Refusal>) -> u8
    ensures { (result ≡ nested_replaying_status answer.old told) × (answer.new ≡ nested_replaying_left answer.old told) }
{
    match told {
        Ok(total) => put(answer, 0, [u64::from(NO_TASK), total]),
        Err(refused) => put(answer, refused.check.number(), [u64::from(refused.task), 0]),
    }
}
