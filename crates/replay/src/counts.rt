// U, D and the lost hits: both runs of a sheet's path, without and with its preemptions, in one pass over the path.
ghost use Rattle.std.specs.Prelude.{◌≡◌, true, ◌*◌, ◌^◌, ◌<◌, length};
ghost use Rattle.cache.specs.References.{All};
ghost use Rattle.cache.specs.Cache.{direct};
ghost use Rattle.cache.specs.Shape.{shaped};
ghost use Rattle.model.specs.Tasks.{references, task};
ghost use Rattle.project.specs.File.{task_count};
ghost use Rattle.project.specs.Reading.{reading_of};
ghost use Rattle.project.specs.Bodies.{accepted};
ghost use Rattle.project.specs.Tasks.{tasks_of, file_shape};
ghost use Rattle.runs.specs.Running.{held_both, both_first, preempted_both};
ghost use Rattle.sheet_checks.specs.SheetChecks.{run_in, Passed13};
ghost use Rattle.replay.specs.Replay.{counted_in};

use crate::Counted;
use body::kept_walk;
use cache::blocks::CacheShape;
use cache::row::Row;
use reader::task_body;
use runs::both_runs::BothRuns;
use runs::part::{FIRST_POINT, Part, PathPoint, last_point, run_path};
use runs::path::BodyPath;
use runs::replay_cache::ReplayCache;

// Both runs at first, with two empty caches.
fn empty_runs() -> BothRuns
    ensures { held_both result ≡ both_first (direct 32) }
{
    let cells = Row::EMPTY.cells();
    let empty = ReplayCache { cells, misses: 0 };
    BothRuns {
        undisturbed: empty,
        disturbed: empty,
        lost: 0,
    }
}

// Both runs after a preemption by a path of the task numbered j: it changes the disturbed row alone; what it misses isn't counted.
fn preempted(file: &[u8], j: usize, path: &[u16], shape: CacheShape, runs: BothRuns) -> BothRuns
    requires { (accepted (reading_of file.now) ≡ true) × (j < task_count file.now) × (shape ≡ file_shape file.now)
        × All (λ b. b < length (task (tasks_of file.now) j)) path.now × (0 < length path.now) × (16 * length path.now < 2 ^ 32) }
    ensures { held_both result ≡ preempted_both (shaped 32 shape) (held_both runs) (references (task (tasks_of file.now) j)
        path.now) }
{
    let undisturbed = runs.undisturbed;
    let own = runs.disturbed;
    let cells = own.cells;
    let uncounted = ReplayCache { cells, misses: 0 };
    let by = run_path(task_body(file, j), path, shape, uncounted);
    let row = by.cells;
    let disturbed = ReplayCache {
        cells: row,
        misses: own.misses,
    };
    BothRuns {
        undisturbed,
        disturbed,
        lost: runs.lost,
    }
}

// The three counts. The run goes from point to point: `from` is the point that is reached, and the next preemption begins at `at`. Own references
// are made in both runs, from two empty caches.
pub fn run_counts(file: &[u8], sheet: &[u16], shape: CacheShape) -> Counted
    requires { Passed13 file.now sheet.now × (shape ≡ file_shape file.now) }
    ensures { result ≡ counted_in file.now (run_in file.now sheet.now) }
{
    let long = usize::from(sheet[1]);
    let body = task_body(file, usize::from(sheet[0]));
    let path = &sheet[2..2 + long];
    let walked = kept_walk(body);
    let starts = &walked.starts;
    let on = BodyPath { body, starts, path };
    let mut run = empty_runs();
    let mut from = FIRST_POINT;
    let mut at = 3 + long;
    // By place: where the next preemption begins is told by the length of this one's path.
    while at < sheet.len() {
        let to = PathPoint {
            position: usize::from(sheet[at]),
            done: usize::from(sheet[at + 1]),
        };
        let part = Part { on, from, to };
        let own = part.after_part_both(shape, run);
        let first = at + 4;
        let next = first + usize::from(sheet[at + 3]);
        run = preempted(
            file,
            usize::from(sheet[at + 2]),
            &sheet[first..next],
            shape,
            own,
        );
        from = to;
        at = next;
    }
    let to = last_point(&on);
    let rest = Part { on, from, to };
    let all = rest.after_part_both(shape, run);
    Counted {
        undisturbed: all.undisturbed.misses,
        disturbed: all.disturbed.misses,
        lost: all.lost,
    }
}
