// The predecessors of each block: the sets of successors turned round.
ghost use Rattle.std.specs.Prelude.{◌≡◌, ◌≤◌, ◌<◌, length};
ghost use Rattle.body.specs.Turned.{leading_to, turned};

// The blocks whose set has the block s.
fn leading_to(sets: &[u32], blocks: usize, s: usize) -> u32
    requires { (blocks ≤ 24) × (s < 24) × (length sets.now ≡ 24) }
    ensures { result ≡ leading_to sets.now blocks s }
{
    let mut set: u32 = 0;
    // By number: the number is the bit that is set.
    for b in 0..blocks {
        if sets[b] & (1 << s) != 0 {
            set |= 1 << b;
        }
    }
    set
}

// For each block the set of its predecessors, by the sets of the blocks' successors.
pub fn predecessors(sets: [u32; 24], blocks: usize) -> [u32; 24]
    requires { blocks ≤ 24 }
    ensures { result ≡ turned sets blocks }
{
    let mut found = [0u32; 24];
    // By number: the number is the block that is asked for.
    for s in 0..blocks {
        found[s] = leading_to(&sets, blocks, s);
    }
    found
}
