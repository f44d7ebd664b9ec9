// What Replay answers, for C.
ghost use Rattle.std.specs.Prelude.{◌≡◌};
ghost use Rattle.c_answers.specs.Replaying.{replaying_status, replaying_left};

use crate::put::put;
use project::answers::{NO_TASK, Refusal};
use replay::Counted;

// Four places: the task named, U, D and the lost hits (0 each after a refusal).
pub fn tell_replaying(answer: &mut [u32], told: Result<Counted, Refusal>) -> u8
    ensures { (result ≡ replaying_status answer.old told) × (answer.new ≡ replaying_left answer.old told) }
{
    match told {
        Ok(
            Counted {
                undisturbed,
                disturbed,
                lost,
            },
        ) => put(
            answer,
            0,
            [u32::from(NO_TASK), undisturbed, disturbed, lost],
        ),
        Err(refused) => put(
            answer,
            refused.check.number(),
            [u32::from(refused.task), 0, 0, 0],
        ),
    }
}
