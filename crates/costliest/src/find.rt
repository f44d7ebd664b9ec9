// The states of two tasks with their trails, and the point and the rows among them that make the pair number.
ghost use Rattle.std.specs.Prelude.{◌≡◌, true, ltb, ◌+◌, ◌*◌, ◌≤◌, ◌<◌, length, take, drop};
ghost use Rattle.cache.specs.Shape.{shaped, Holds};
ghost use Rattle.model.specs.Tasks.{task};
ghost use Rattle.body.specs.Decode.{decode, task_of};
ghost use Rattle.body.specs.Walk.{kept_of};
ghost use Rattle.rows.specs.Rows.{Width, kind_length, area_length};
ghost use Rattle.gather.specs.Memory.{Memory, held_rows};
ghost use Rattle.project.specs.File.{task_count};
ghost use Rattle.project.specs.Reading.{reading_of};
ghost use Rattle.project.specs.Bodies.{accepted};
ghost use Rattle.project.specs.Tasks.{tasks_of, file_shape};
ghost use Rattle.task_trails.specs.TaskTrails.{AreaTrails};
ghost use Rattle.block_rows.specs.BlockRows.{listed};
ghost use Rattle.trails.specs.Trails.{IsPlace};
ghost use Rattle.search.specs.Search.{Searched};
ghost use Rattle.costliest.specs.Parts.{BeforeIs, PreemptionIs};

use block_rows::held::Held;
use block_rows::row_list::RowList;
use cache::blocks::CacheShape;
use reader::task_body;
use run_sheet::Preemption;
use search::{Found, Point, search};
use task_trails::{TaskTrails, task_trails};
use trails::write::Place;

// The states of a task of an accepted file, with their trails. Left open is what `task_trails` leaves open.
pub fn find_trails(
    file: &[u8],
    shape: CacheShape,
    w: usize,
    number: usize,
    area: &mut [u16],
) -> TaskTrails
    requires { (accepted (reading_of file.now) ≡ true) × (shape ≡ file_shape file.now) × Holds w shape × Width w × (number < task_count file.now)
        × (length area.old ≡ area_length w) }
    ensures { AreaTrails (shaped w shape) (task (tasks_of file.now) number)
        area.new result.reached result.lived result.to result.on result.full }
{
    task_trails(task_body(file, number), shape, w, area)
}

// The point of an unmasked block of a body, the rows there in a work area, and the end row of another task that cost most; which of several is left open.
// `own` tells how many rows a block has in the area.
pub fn find_rows(
    body: &[u8],
    shape: CacheShape,
    area: &[u16],
    own: &TaskTrails,
    ends: &RowList,
) -> Found
    requires { (kept_of (decode body.now) ≡ true) × Holds ends.now.w shape × (length area.now ≡ area_length ends.now.w)
        × Memory ends.now.w (take (kind_length ends.now.w) area.now) own.now.reached
        × Memory ends.now.w (take (kind_length ends.now.w) (drop (kind_length ends.now.w) area.now)) own.now.lived }
    ensures { Searched (shaped ends.now.w shape) (task_of (decode body.now))
        (held_rows ends.now.w (take (kind_length ends.now.w) area.now) own.now.reached)
        (held_rows ends.now.w (take (kind_length ends.now.w) (drop (kind_length ends.now.w) area.now)) own.now.lived) (listed ends.now) result }
{
    let w = ends.w;
    let kind = 24 * (32 * w);
    let reaching = Held {
        w,
        rows: &area[0..kind],
        counts: &own.reached,
    };
    let live = Held {
        w,
        rows: &area[kind..kind + kind],
        counts: &own.lived,
    };
    search(body, shape, &reaching, &live, ends)
}

// The place of the reaching row before the block of a point; none where this is the first block of its path.
pub fn place_before<'a>(point: Point, trails: &'a [u16]) -> Option<Place<'a>>
    requires { IsPlace trails.now (32 * point.before + point.reaching) }
    ensures { BeforeIs point.first trails.now (32 * point.before + point.reaching) result }
{
    if point.first {
        return None;
    }
    Some(Place {
        trails,
        at: 32 * point.before + point.reaching,
    })
}

// The preemption at the point that is found, by the task j along the path to a place; none where nothing is found.
pub fn preemption_at<'a>(found: Found, j: u16, path: Place<'a>) -> Option<Preemption<'a>>
    requires { found.point.done ≤ 16 }
    ensures { PreemptionIs (ltb 0 found.cost) j found.point.done path.entry.trails.now path.entry.at result }
{
    if found.cost == 0 {
        return None;
    }
    Some(Preemption {
        by: j,
        done: found.point.done as u16,
        path,
    })
}
