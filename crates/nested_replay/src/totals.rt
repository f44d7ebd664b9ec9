// All references of a nested run on one cache, which goes through the calls by value: a run makes the references of its path from point to point, and
// at each point the runs of its list that come there.
ghost use Rattle.std.specs.Prelude.{◌≡◌, ◌+◌, ◌^◌, ◌≤◌, ◌<◌, length};
ghost use Rattle.cache.specs.Shape.{shaped, Holds};
ghost use Rattle.model.specs.Runs.{own_references};
ghost use Rattle.body.specs.Decode.{decode, task_of};
ghost use Rattle.project.specs.Tasks.{tasks_of, file_shape};
ghost use Rattle.runs.specs.Parts.{references_at, part_of, last_point};
ghost use Rattle.nested_sheet.specs.NestedRuns.{own_list, list_of, nested_run_of};
ghost use Rattle.nested_replay.specs.NestedReplay.{total_in};
ghost use Rattle.task_maps.specs.TaskMaps.{HasMaps};
ghost use Rattle.nested_replay.specs.Passes.{held_total, rest_references, references_from, RunReplays, ListReplays};

use crate::input::NestedInput;
use cache::blocks::CacheShape;
use cache::row::Row;
use reader::task_body;
use runs::part::{FIRST_POINT, Part, PathPoint, last_point};
use runs::path::BodyPath;
use runs::replay_cache::ReplayCache;

// A cache row, and the misses of all runs so far: more than four bytes hold.
#[derive(Clone, Copy)]
pub struct TotalCache {
    pub cells: [u16; 32],
    pub misses: u64,
}

// The cache after a run or a list, and the place after it in the sheet.
#[derive(Clone, Copy)]
pub struct Totalled {
    pub cache: TotalCache,
    pub next: usize,
}

// The own references of a part of a path.
fn total_part(part: &Part<'_, '_>, shape: CacheShape, cache: TotalCache) -> TotalCache
    requires { Holds 32 shape × (length part.now.on.path.now ≤ 1536)
        × (cache.misses + length (part_of (task_of (decode part.now.on.body.now)) part.now.on.path.now part.now.from part.now.to) < 2 ^ 64) }
    ensures { held_total result ≡ own_references (shaped 32 shape) (held_total cache)
        (part_of (task_of (decode part.now.on.body.now)) part.now.on.path.now part.now.from part.now.to) }
{
    let cells = cache.cells;
    let own = part.after_part(shape, ReplayCache { cells, misses: 0 });
    let row = own.cells;
    TotalCache {
        cells: row,
        misses: cache.misses + u64::from(own.misses),
    }
}

// The own references from a point to the end of a path.
fn total_rest(
    on: &BodyPath<'_, '_>,
    from: PathPoint,
    shape: CacheShape,
    cache: TotalCache,
) -> TotalCache
    requires { (from.position < length on.now.path.now)
        × (from.done ≤ length (references_at (task_of (decode on.now.body.now)) on.now.path.now from.position)) × Holds 32 shape
        × (length on.now.path.now ≤ 1536)
        × (cache.misses + length (part_of (task_of (decode on.now.body.now)) on.now.path.now from
        (last_point (task_of (decode on.now.body.now)) on.now.path.now)) < 2 ^ 64) }
    ensures { held_total result ≡ own_references (shaped 32 shape) (held_total cache)
        (part_of (task_of (decode on.now.body.now)) on.now.path.now from (last_point (task_of (decode on.now.body.now)) on.now.path.now)) }
{
    let to = last_point(on);
    let on = *on;
    total_part(&Part { on, from, to }, shape, cache)
}

// The run that begins at `at`; its runs lie at most `deep` one within the other.
#[cycle(total_list_total_run)]
fn total_run(input: &NestedInput<'_>, at: usize, deep: usize, cache: TotalCache) -> Totalled
    requires { HasMaps input.now.file.now input.now.maps.now × RunReplays input.now.file.now input.now.sheet.now deep at
        × (input.now.shape ≡ file_shape input.now.file.now)
        × (cache.misses + length (references_from input.now.file.now input.now.sheet.now deep at) < 2 ^ 64) }
    ensures { (held_total result.cache ≡ own_references (shaped 32 input.now.shape) (held_total cache)
        (references_from input.now.file.now input.now.sheet.now deep at))
        × (result.next ≡ (own_list deep input.now.sheet.now at).next) }
{
    let sheet = input.sheet;
    let task = usize::from(sheet[at]);
    let body = task_body(input.file, task);
    let map = &input.maps[task];
    let first = at + 2;
    let end = first + usize::from(sheet[at + 1]);
    let on = BodyPath {
        body,
        starts: &map.starts,
        path: &sheet[first..end],
    };
    let left = usize::from(sheet[end]);
    total_list(input, &on, FIRST_POINT, end + 1, left, deep, cache)
}

// The list of `left` runs that begins at `at`, in a run along the path, where the point `from` is reached; and then the rest of the path.
#[cycle(total_list_total_run)]
fn total_list(
    input: &NestedInput<'_>,
    on: &BodyPath<'_, '_>,
    from: PathPoint,
    at: usize,
    left: usize,
    deep: usize,
    cache: TotalCache,
) -> Totalled
    requires { HasMaps input.now.file.now input.now.maps.now
        × ListReplays input.now.file.now input.now.sheet.now (task_of (decode on.now.body.now)) on.now.path.now from
        (list_of deep input.now.sheet.now left at)
        × (input.now.shape ≡ file_shape input.now.file.now)
        × (cache.misses + length (rest_references (tasks_of input.now.file.now) (task_of (decode on.now.body.now)) on.now.path.now from
        (list_of deep input.now.sheet.now left at).runs) < 2 ^ 64) }
    ensures { (held_total result.cache ≡ own_references (shaped 32 input.now.shape) (held_total cache) (rest_references
        (tasks_of input.now.file.now) (task_of (decode on.now.body.now)) on.now.path.now from (list_of deep input.now.sheet.now left at).runs))
        × (result.next ≡ (list_of deep input.now.sheet.now left at).next) }
{
    let shape = input.shape;
    if left == 0 || deep == 0 {
        return Totalled {
            cache: total_rest(on, from, shape, cache),
            next: at,
        };
    }
    let sheet = input.sheet;
    let to = PathPoint {
        position: usize::from(sheet[at]),
        done: usize::from(sheet[at + 1]),
    };
    let part = Part { on: *on, from, to };
    let own = total_part(&part, shape, cache);
    let inner = total_run(input, at + 2, deep - 1, own);
    let cells = inner.cache.cells;
    let after = TotalCache {
        cells,
        misses: inner.cache.misses,
    };
    total_list(input, on, to, inner.next, left - 1, deep, after)
}

// The total of the nested run of a sheet that passed its checks.
pub fn total_misses(input: &NestedInput<'_>) -> u64
    requires { HasMaps input.now.file.now input.now.maps.now × RunReplays input.now.file.now input.now.sheet.now 7 0
        × (input.now.shape ≡ file_shape input.now.file.now) }
    ensures { result ≡ total_in input.now.file.now (nested_run_of input.now.sheet.now) }
{
    let cells = Row::EMPTY.cells();
    let all = total_run(input, 0, 7, TotalCache { cells, misses: 0 });
    all.cache.misses
}
