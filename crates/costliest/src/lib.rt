// Costliest run: for two tasks a run sheet with one preemption that costs their pair number.
#![tactic(auto)]

mod find;

ghost use Rattle.std.specs.Prelude.{◌≡◌, Ok, true, false, ◌<◌, ◌≤◌, length};
ghost use Rattle.cache.specs.Shape.{Holds};
ghost use Rattle.model.specs.Tasks.{task};
ghost use Rattle.rows.specs.Rows.{Width, area_length};
ghost use Rattle.project.specs.File.{task_count};
ghost use Rattle.project.specs.Reading.{head_check, reading_of};
ghost use Rattle.project.specs.Bodies.{accepted};
ghost use Rattle.project.specs.Checklist.{verdict_of};
ghost use Rattle.project.specs.Tasks.{tasks_of, file_shape, file_cache_in};
ghost use Rattle.task_trails.specs.TaskTrails.{AreaTrails};
ghost use Rattle.run_sheet.specs.Joined.{costliest_sheet_length};
ghost use Rattle.costliest.specs.Costliest.{test18, asked_checks, two_check, two_checks, costliest_check, WrittenRun, CostliestAnswer};

use area::AREA_LENGTH;
use block_rows::row_list::RowList;
use body::block_count;
use cache::blocks::CacheShape;
use cache::numbers::byte_count;
use find::{find_rows, find_trails, place_before, preemption_at};
use project::answers::{Check, Refusal};
use project::head::head;
use reader::{file_shape, read_bodies, task_body};
use run_sheet::{JoinedRun, write_sheet};
use task_trails::TaskTrails;
use trails::write::Place;

// The fewest numbers of a lent sheet (check 19). No sheet that is written has more: task, path length and 1,536 blocks at most, count, position,
// references done, task, path length and 768 blocks at most.
pub const COSTLIEST_SHEET_LENGTH: usize = 2311;

// Checks 18 and 19, in a file of this many tasks.
fn check_asked(i: usize, j: usize, tasks: usize, sheet: &[u16]) -> Result<(), Refusal>
    ensures { result ≡ verdict_of (asked_checks tasks i j sheet.now) }
{
    if i == j || tasks <= i || tasks <= j {
        return Err(Check::SameTasks.into());
    }
    if sheet.len() < COSTLIEST_SHEET_LENGTH {
        return Err(Check::SheetLength.into());
    }
    Ok(())
}

// Check 11 of two tasks, where `own` and `other` tell whether i and j have a block with too many states: the lower one at fault is named.
fn check_two(i: usize, own: bool, j: usize, other: bool) -> Result<(), Refusal>
    requires { (i < 256) × (j < 256) }
    ensures { result ≡ two_check i own j other }
{
    if own && (!other || i < j) {
        return Err(Refusal {
            check: Check::TooManyStates,
            task: i as u8,
        });
    }
    if other {
        return Err(Refusal {
            check: Check::TooManyStates,
            task: j as u8,
        });
    }
    Ok(())
}

// Writes the sheet of a run of i that costs the pair number of i preempted by j. The areas hold the states of i and of j, with the trails `own` and
// `other`. Which such run is left open.
fn write_run(
    file: &[u8],
    shape: CacheShape,
    w: usize,
    i: usize,
    j: usize,
    first: &[u16],
    own: TaskTrails,
    second: &[u16],
    other: TaskTrails,
    sheet: &mut [u16],
) -> Result<usize, Refusal>
    requires { (accepted (reading_of file.now) ≡ true) × (shape ≡ file_shape file.now) × Holds w shape × (test18 (task_count file.now) i j ≡ false)
        × (costliest_sheet_length ≤ length sheet.old)
        × AreaTrails (file_cache_in w file.now) (task (tasks_of file.now) i) first.now own.reached own.lived own.to own.on false
        × AreaTrails (file_cache_in w file.now) (task (tasks_of file.now) j) second.now other.reached other.lived other.to other.on false }
    ensures { WrittenRun file.now i j sheet.old result sheet.new }
{
    let body = task_body(file, i);
    let end = block_count(task_body(file, j)) - 1;
    let part = 32 * w;
    let at = part * end;
    let ended = other.reached;
    let ends = RowList {
        w,
        rows: &second[at..at + part],
        count: ended[end],
    };
    let found = find_rows(body, shape, first, &own, &ends);
    let point = found.point;
    let on = Place {
        trails: &own.on,
        at: 32 * point.block + found.live,
    };
    let by = Place {
        trails: &other.to,
        at: 32 * end + found.ending,
    };
    let before = place_before(point, &own.to);
    let preemption = preemption_at(found, j as u16, by);
    let run = JoinedRun {
        task: i as u16,
        before,
        on,
        preemption,
    };
    Ok(write_sheet(&run, sheet))
}

// The answer for an accepted file, two of its tasks, and a sheet that is long enough: check 11 of the two, and then the run. What the areas hold
// afterwards is free.
fn run_of_two(
    file: &[u8],
    shape: CacheShape,
    w: usize,
    i: usize,
    j: usize,
    first: &mut [u16],
    second: &mut [u16],
    sheet: &mut [u16],
) -> Result<usize, Refusal>
    requires { (accepted (reading_of file.now) ≡ true) × (shape ≡ file_shape file.now) × Holds w shape × Width w
        × (test18 (task_count file.now) i j ≡ false) × (costliest_sheet_length ≤ length sheet.old)
        × (length first.old ≡ area_length w) × (length second.old ≡ area_length w) }
    ensures { CostliestAnswer (verdict_of (two_checks w file.now i j)) file.now i j sheet.old result sheet.new
        × (length first.new ≡ area_length w) × (length second.new ≡ area_length w) }
{
    let own = find_trails(file, shape, w, i, first);
    let other = find_trails(file, shape, w, j, second);
    check_two(i, own.full, j, other.full)?;
    write_run(file, shape, w, i, j, first, own, second, other, sheet)
}

// The answer for a file whose first eight bytes passed their checks, with areas of the right length. What they hold afterwards is free.
fn run_of_bodies(
    file: &[u8],
    i: usize,
    j: usize,
    first: &mut [u16],
    second: &mut [u16],
    sheet: &mut [u16],
) -> Result<usize, Refusal>
    requires { (head_check file.now ≡ Ok tt) × (length first.old ≡ area_length 16) × (length second.old ≡ area_length 16) }
    ensures { CostliestAnswer (costliest_check 16 file.now i j first.old second.old sheet.old)
        file.now i j sheet.old result sheet.new
        × (length first.new ≡ area_length 16) × (length second.new ≡ area_length 16) }
{
    let accepted = read_bodies(file)?;
    check_asked(i, j, byte_count(accepted.t), sheet)?;
    run_of_two(file, file_shape(file), 16, i, j, first, second, sheet)
}

// Costliest run: the sheet of a run of task i with one preemption by task j, or with none where i has no unmasked block, that loses as many hits as the
// pair number, or the check that fails first. Which such run is left open, and so is what the work areas hold afterwards. The first bytes are checked
// here, so that a file that they refuse costs no call.
pub fn costliest_run(
    file: &[u8],
    i: usize,
    j: usize,
    first: &mut [u16],
    second: &mut [u16],
    sheet: &mut [u16],
) -> Result<usize, Refusal>
    ensures { CostliestAnswer (costliest_check 16 file.now i j first.old second.old sheet.old)
        file.now i j sheet.old result sheet.new
        × (length first.new ≡ length first.old) × (length second.new ≡ length second.old) }
{
    if first.len() != AREA_LENGTH || second.len() != AREA_LENGTH {
        return Err(Check::ListLength.into());
    }
    head(file)?;
    run_of_bodies(file, i, j, first, second, sheet)
}
