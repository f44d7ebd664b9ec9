// What filling a work area or a table answers, for C.
ghost use Rattle.std.specs.Prelude.{◌≡◌};
ghost use Rattle.c_answers.specs.Filling.{filling_status, filling_left};

use crate::put::put;
use project::answers::{NO_TASK, Refusal};

// One place: the task named.
pub fn tell_filling(named: &mut [u8], told: Result<(), Refusal>) -> u8
    ensures { (result ≡ filling_status named.old told) × (named.new ≡ filling_left named.old told) }
{
    match told {
        Ok(()) => put(named, 0, [NO_TASK]),
        Err(refused) => put(named, refused.check.number(), [refused.task]),
    }
}
