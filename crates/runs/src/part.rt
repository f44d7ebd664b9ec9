// The references of a part of a path, from point to point, made on one cache, or on both caches of a run. The caches are lent for the whole part.
ghost use Rattle.std.specs.Prelude.{◌≡◌, ◌+◌, ◌*◌, ◌^◌, ◌≤◌, ◌<◌, length};
ghost use Rattle.cache.specs.References.{numbers};
ghost use Rattle.cache.specs.Shape.{shaped, Holds};
ghost use Rattle.model.specs.Tasks.{references};
ghost use Rattle.model.specs.Runs.{own_references};
ghost use Rattle.body.specs.Decode.{decode, task_of};
ghost use Rattle.runs.specs.Running.{held, both, held_both, CountsFit, own_both, RunsIn};
ghost use Rattle.runs.specs.Props.{PartIn-prop};
ghost use Rattle.runs.specs.Parts.{part_of, part_at, PartIn, last_point};

use crate::both_runs::{BothRuns, refer_both};
use crate::path::BodyPath;
use crate::replay_cache::{ReplayCache, refer_all};
use body::kept_walk;
use cache::blocks::CacheShape;

// A point of a path: a position, and how many references of the block there are done.
#[derive(Clone, Copy)]
pub struct PathPoint {
    pub position: usize,
    pub done: usize,
}

// The first point of a path: no reference is done.
pub const FIRST_POINT: PathPoint = PathPoint {
    position: 0,
    done: 0,
};

// The last point of a path: all references of its last block are done.
pub fn last_point(on: &BodyPath<'_, '_>) -> PathPoint
    requires { 0 < length on.now.path.now }
    ensures { result ≡ last_point (task_of (decode on.now.body.now)) on.now.path.now }
{
    let position = on.path.len() - 1;
    let done = on.count_on(position);
    PathPoint { position, done }
}

// The part of a path between two of its points.
#[derive(Clone, Copy)]
pub struct Part<'a, 'b> {
    pub on: BodyPath<'a, 'b>,
    pub from: PathPoint,
    pub to: PathPoint,
    ghost within: { PartIn (task_of (decode on.body.now)) on.path.now from to } by { PartIn-prop (task_of (decode on.body.now)) on.path.now from to },
}

impl<'a, 'b> Part<'a, 'b> {
    // The references of the block at the position x that lie in the part, two bytes each, as a part of the body; where in the body it stands is left
    // open.
    pub fn part_on(&self, x: usize) -> &'a [u8]
        requires { (self.now.from.position ≤ x) × (x ≤ self.now.to.position) }
        ensures { numbers result.now ≡ part_at (task_of (decode self.now.on.body.now)) self.now.on.path.now self.now.from self.now.to x }
    {
        let bytes = self.on.references_on(x);
        let mut first: usize = 0;
        if x == self.from.position {
            first = 2 * self.from.done;
        }
        let mut end = bytes.len();
        if x == self.to.position {
            end = 2 * self.to.done;
        }
        &bytes[first..end]
    }

    // The references of the part, in order, on a lent cache.
    pub fn refer_part(&self, shape: CacheShape, cache: &mut ReplayCache)
        requires { Holds 32 shape
            × (cache.old.misses + length (part_of (task_of (decode self.now.on.body.now)) self.now.on.path.now self.now.from self.now.to) < 2 ^ 32) }
        ensures { held cache.new ≡ own_references (shaped 32 shape) (held cache.old)
            (part_of (task_of (decode self.now.on.body.now)) self.now.on.path.now self.now.from self.now.to) }
    {
        // So the position after the last one is a number too.
        prove!(self.to.position < self.on.path.len());
        // By number: positions of the path, whose blocks are read by `part_on`.
        for x in self.from.position..self.to.position + 1 {
            refer_all(self.part_on(x), shape, cache);
        }
    }

    // The same as `refer_part`, for callers that hold the cache by value: a local is lent.
    pub fn after_part(&self, shape: CacheShape, cache: ReplayCache) -> ReplayCache
        requires { Holds 32 shape
            × (cache.misses + length (part_of (task_of (decode self.now.on.body.now)) self.now.on.path.now self.now.from self.now.to) < 2 ^ 32) }
        ensures { held result ≡ own_references (shaped 32 shape) (held cache)
            (part_of (task_of (decode self.now.on.body.now)) self.now.on.path.now self.now.from self.now.to) }
    {
        let mut lent = cache;
        self.refer_part(shape, &mut lent);
        lent
    }

    // The references of the part, in order, as own references on both lent caches of a run; the lost hits are counted on.
    pub fn refer_part_both(
        &self,
        shape: CacheShape,
        undisturbed: &mut ReplayCache,
        disturbed: &mut ReplayCache,
        lost: u32,
    ) -> u32
        requires { Holds 32 shape
            × CountsFit (both (held undisturbed.old) (held disturbed.old) lost)
            (length (part_of (task_of (decode self.now.on.body.now)) self.now.on.path.now self.now.from self.now.to)) }
        ensures { both (held undisturbed.new) (held disturbed.new) result
            ≡ own_both (shaped 32 shape) (both (held undisturbed.old) (held disturbed.old) lost)
            (part_of (task_of (decode self.now.on.body.now)) self.now.on.path.now self.now.from self.now.to) }
    {
        let mut so_far = lost;
        prove!(self.to.position < self.on.path.len());
        // By number: positions of the path, whose blocks are read by `part_on`.
        for x in self.from.position..self.to.position + 1 {
            so_far = refer_both(self.part_on(x), shape, undisturbed, disturbed, so_far);
        }
        so_far
    }

    // The same as `refer_part_both`, for callers that hold both caches by value.
    pub fn after_part_both(&self, shape: CacheShape, runs: BothRuns) -> BothRuns
        requires { Holds 32 shape
            × CountsFit (held_both runs) (length (part_of (task_of (decode self.now.on.body.now)) self.now.on.path.now self.now.from self.now.to)) }
        ensures { held_both result ≡ own_both (shaped 32 shape) (held_both runs)
            (part_of (task_of (decode self.now.on.body.now)) self.now.on.path.now self.now.from self.now.to) }
    {
        let mut undisturbed = runs.undisturbed;
        let mut disturbed = runs.disturbed;
        let lost = self.refer_part_both(shape, &mut undisturbed, &mut disturbed, runs.lost);
        BothRuns {
            undisturbed,
            disturbed,
            lost,
        }
    }
}

// The cache after the references of the blocks of a path of a body's task, in order.
pub fn run_path(body: &[u8], path: &[u16], shape: CacheShape, cache: ReplayCache) -> ReplayCache
    requires { RunsIn body.now path.now × Holds 32 shape × (0 < length path.now) × (cache.misses + 16 * length path.now < 2 ^ 32) }
    ensures { held result ≡ own_references (shaped 32 shape) (held cache) (references (task_of (decode body.now)) path.now) }
{
    let walked = kept_walk(body);
    let on = BodyPath {
        body: walked.body,
        starts: &walked.starts,
        path,
    };
    let to = last_point(&on);
    let part = Part {
        on,
        from: FIRST_POINT,
        to,
    };
    part.after_part(shape, cache)
}
