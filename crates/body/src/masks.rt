// Masked blocks: a flags byte of 1 means that no preemption comes after the block.
ghost use Rattle.std.specs.Prelude.{◌≡◌, true};
ghost use Rattle.body.specs.Decode.{decode, task_of};
ghost use Rattle.body.specs.Walk.{kept_of};
ghost use Rattle.body.specs.Jumps.{unmasked_set};

use crate::kept_walk;

// The set of the unmasked blocks of a body.
pub fn unmasked_blocks(body: &[u8]) -> u32
    requires { kept_of (decode body.now) ≡ true }
    ensures { result ≡ unmasked_set (task_of (decode body.now)) }
{
    let walked = kept_walk(body);
    let mut set: u32 = 0;
    // By number: the number is the bit that is set.
    for b in 0..walked.blocks {
        if body[walked.starts[b]] == 0 {
            set |= 1 << b;
        }
    }
    set
}
