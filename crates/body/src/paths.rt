// Check 9: whether each block of a task lies on a complete path. Sets of blocks are bits of a number.
ghost use Rattle.std.specs.Prelude.{◌≡◌, ◌≤◌, ◌<◌, length};
ghost use Rattle.cache.specs.References.{All};
ghost use Rattle.model.specs.Tasks.{Task};
ghost use Rattle.model.specs.OnPath.{all_on_path};
ghost use Rattle.body.specs.Layout.{InBounds};
ghost use Rattle.body.specs.Jumps.{set_of, jump_sets, LedTo, Exactly, has_below};

use crate::predecessors::predecessors;

// The set of the blocks in a list.
pub fn set_of(blocks: &[u8]) -> u32
    requires { All (λ s. s < 24) blocks.now }
    ensures { result ≡ set_of blocks.now }
{
    let mut set: u32 = 0;
    for &b in blocks {
        set |= 1 << u32::from(b);
    }
    set
}

// Whether each of the blocks is in the set.
fn has_all(set: u32, count: usize) -> bool
    requires { count ≤ 24 }
    ensures { result ≡ has_below set count }
{
    // By number: the number is the bit that is asked.
    for b in 0..count {
        if set & (1 << b) == 0 {
            return false;
        }
    }
    true
}

// The blocks that the sets lead to from a block, itself among them: each block that is reached adds its set, once.
fn closure(sets: [u32; 24], first: usize) -> u32
    requires { (first < 24) × All (λ x. x < 16777216) sets }
    ensures { Exactly (LedTo sets first) result }
{
    let mut reached: u32 = 1 << first;
    let mut done: u32 = 0;
    while done != reached {
        let b = u32::trailing_zeros(reached ^ done) as usize;
        done |= 1 << b;
        reached |= sets[b];
    }
    reached
}

// Whether each block lies on a complete path, by the sets of the blocks' successors: the blocks that the sets lead to from block 0, and,
// turned round, those that they lead to from the end block. Told only of sets that are the jumps of a task within the bounds.
pub fn all_on_paths(sets: [u32; 24], count: usize) -> bool
    requires { (1 ≤ count) × (count ≤ 24) × All (λ x. x < 16777216) sets }
    ensures { (t : Task) → InBounds t → length t ≡ count → sets ≡ jump_sets t → result ≡ all_on_path t }
{
    let from_entry = closure(sets, 0);
    let to_end = closure(predecessors(sets, count), count - 1);
    has_all(from_entry & to_end, count)
}
