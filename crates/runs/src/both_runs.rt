// The caches of a run without and with its preemptions, each lent by `&mut` for each own reference.
ghost use Rattle.std.specs.Prelude.{◌≡◌, not, ◌&&◌, ◌+◌, ◌/◌, ◌^◌, ◌<◌, length};
ghost use Rattle.cache.specs.Sum.{bit};
ghost use Rattle.cache.specs.References.{numbers};
ghost use Rattle.cache.specs.Shape.{shaped, Holds};
ghost use Rattle.runs.specs.Running.{held, both, CountsFit, own_both};

use crate::replay_cache::{ReplayCache, refer, reference_at};
use cache::blocks::CacheShape;

// Both caches, and the lost hits so far: own references that hit in the undisturbed run and miss in the disturbed one.
#[derive(Clone, Copy)]
pub struct BothRuns {
    pub undisturbed: ReplayCache,
    pub disturbed: ReplayCache,
    pub lost: u32,
}

// The lost hits after one own reference more; `undisturbed` and `disturbed` tell whether it hits in either run.
fn with_lost(lost: u32, undisturbed: bool, disturbed: bool) -> u32
    requires { lost + 1 < 2 ^ 32 }
    ensures { result ≡ lost + bit (undisturbed && not disturbed) }
{
    if undisturbed {
        if disturbed { lost } else { lost + 1 }
    } else {
        lost
    }
}

// Own references in order, two bytes each, on both lent caches; the lost hits are counted on.
pub fn refer_both(
    references: &[u8],
    shape: CacheShape,
    undisturbed: &mut ReplayCache,
    disturbed: &mut ReplayCache,
    lost: u32,
) -> u32
    requires { Holds 32 shape × CountsFit (both (held undisturbed.old) (held disturbed.old) lost) (length references.now / 2) }
    ensures { both (held undisturbed.new) (held disturbed.new) result
        ≡ own_both (shaped 32 shape) (both (held undisturbed.old) (held disturbed.old) lost) (numbers
        references.now) }
{
    let mut so_far = lost;
    // By number: each reference is two bytes.
    for i in 0..references.len() / 2 {
        let m = reference_at(references, i);
        let before = refer(undisturbed, m, shape);
        let after = refer(disturbed, m, shape);
        so_far = with_lost(so_far, before, after);
    }
    so_far
}
