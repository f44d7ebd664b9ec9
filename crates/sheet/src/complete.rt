// Check 13 of one path: whether it is complete, by the sets of the blocks' successors.
ghost use Rattle.std.specs.Prelude.{◌≡◌, true, ◌≤◌, length};
ghost use Rattle.body.specs.Decode.{decode, task_of};
ghost use Rattle.body.specs.Walk.{kept_of};
ghost use Rattle.sheet.specs.Parsed.{complete_path, complete_by_sets};

use body::jumps::jumps;
use body::kept_walk;

// Whether the path begins in block 0, steps to blocks in the set of the one before and ends in the last of the blocks.
pub fn steps_to_end(sets: &[u32], blocks: usize, path: &[u16]) -> bool
    requires { (1 ≤ blocks) × (blocks ≤ 24) × (length sets.now ≡ 24) }
    ensures { result ≡ complete_by_sets sets.now blocks path.now }
{
    let [entry, steps @ ..] = path else {
        return false;
    };
    if *entry != 0 {
        return false;
    }
    let mut b: usize = 0;
    for &step in steps {
        let next = usize::from(step);
        if blocks <= next {
            return false;
        }
        if sets[b] & (1 << next) == 0 {
            return false;
        }
        b = next;
    }
    b == blocks - 1
}

// Whether a path of the task of a body is complete; a block that isn't there is on none.
pub fn complete(body: &[u8], path: &[u16]) -> bool
    requires { kept_of (decode body.now) ≡ true }
    ensures { result ≡ complete_path (task_of (decode body.now)) path.now }
{
    let walked = kept_walk(body);
    let sets = jumps(&walked);
    steps_to_end(&sets, walked.blocks, path)
}
