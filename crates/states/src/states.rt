// States: the reaching and live states of one task of a file, in a work area.
ghost use Rattle.std.specs.Prelude.{◌≡◌, true, ◌<◌, length};
ghost use Rattle.cache.specs.Shape.{shaped, Holds};
ghost use Rattle.body.specs.Decode.{decode, task_of};
ghost use Rattle.body.specs.Walk.{kept_of};
ghost use Rattle.rows.specs.Rows.{Width, area_length};
ghost use Rattle.project.specs.File.{task_count};
ghost use Rattle.project.specs.Reading.{reading_of};
ghost use Rattle.project.specs.Bodies.{accepted};
ghost use Rattle.project.specs.Tasks.{file_shape};
ghost use Rattle.states.specs.Filling.{BodyStates, TaskStates, filling_of, area_after};

use area::AREA_LENGTH;
use area::fill::sort_area;
use cache::blocks::CacheShape;
use cache::numbers::byte_count;
use graphs::task_rows::task_rows;
use project::answers::{Check, Refusal};
use reader::{file_shape, read, task_body};

// The states of a body fill the area, in rows of w places; true, and an area that may hold anything, where a block has more than 32 of a
// kind.
fn fill_body(body: &[u8], shape: CacheShape, w: usize, area: &mut [u16]) -> bool
    requires { (kept_of (decode body.now) ≡ true) × Holds w shape × Width w × (length area.old ≡ area_length w) }
    ensures { BodyStates (shaped w shape) (task_of (decode body.now)) area.new result }
{
    let mut reached = [0usize; 24];
    let mut lived = [0usize; 24];
    if task_rows(body, shape, w, area, &mut reached, &mut lived) {
        return true;
    }
    sort_area(area, w, &reached, &lived);
    false
}

// The states of a task of an accepted file fill the area, in rows of w places; check 11, after which the area may hold anything.
fn fill_task(
    file: &[u8],
    shape: CacheShape,
    w: usize,
    task: usize,
    area: &mut [u16],
) -> Result<(), Refusal>
    requires { (accepted (reading_of file.now) ≡ true) × (shape ≡ file_shape file.now) × Holds w shape × Width w × (task < task_count file.now)
        × (length area.old ≡ area_length w) }
    ensures { TaskStates w file.now task area.new result }
{
    if fill_body(task_body(file, task), shape, w, area) {
        return Err(Refusal {
            check: Check::TooManyStates,
            task: task as u8,
        });
    }
    Ok(())
}

// The checks after 1; where they pass the states of a task fill the area, else it may hold anything.
fn fill(file: &[u8], task: usize, area: &mut [u16]) -> Result<(), Refusal>
    requires { length area.old ≡ area_length 16 }
    ensures { TaskStates 16 file.now task area.new result }
{
    let accepted = read(file)?;
    if byte_count(accepted.t) <= task {
        return Err(Check::NoSuchTask.into());
    }
    fill_task(file, file_shape(file), 16, task, area)
}

// States: the area filled with the states of a task; after a refusal zeros, except after check 1, which changes nothing.
pub fn states(file: &[u8], task: usize, area: &mut [u16]) -> Result<(), Refusal>
    ensures { (result ≡ filling_of 16 file.now task area.old) × (area.new ≡ area_after 16 file.now task area.old) }
{
    if area.len() != AREA_LENGTH {
        return Err(Check::ListLength.into());
    }
    let filled = fill(file, task, area);
    if filled.is_err() {
        area.fill(0);
    }
    filled
}
