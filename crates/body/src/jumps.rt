// The jumps of a task: for each block the set of its successors, and check 9 of a body.
ghost use Rattle.std.specs.Prelude.{◌≡◌};
ghost use Rattle.model.specs.OnPath.{all_on_path};
ghost use Rattle.body.specs.Decode.{decode, task_of};
ghost use Rattle.body.specs.Jumps.{jump_sets};

use crate::paths::{all_on_paths, set_of};
use crate::{BodyWalk, successors};

// For each block of a body the set of its successors.
pub fn jumps(walk: &BodyWalk<'_>) -> [u32; 24]
    ensures { result ≡ jump_sets (task_of (decode walk.now.body.now)) }
{
    let mut sets = [0u32; 24];
    // By number: the starts are read and the sets are written at the same block.
    for b in 0..walk.blocks {
        sets[b] = set_of(successors(walk.body, walk.starts[b]));
    }
    sets
}

// Whether each block of a body lies on a complete path.
pub fn on_paths(walk: &BodyWalk<'_>) -> bool
    ensures { result ≡ all_on_path (task_of (decode walk.now.body.now)) }
{
    all_on_paths(jumps(walk), walk.blocks)
}
