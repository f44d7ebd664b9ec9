// The pair numbers of all tasks of a file, once the end rows of each are known.
ghost use Rattle.std.specs.Prelude.{◌≡◌, Ok, true, List, length, replicate};
ghost use Rattle.cache.specs.Shape.{shaped, Holds};
ghost use Rattle.model.specs.Tasks.{Task};
ghost use Rattle.rows.specs.Rows.{area_length};
ghost use Rattle.body.specs.Decode.{decode, task_of};
ghost use Rattle.body.specs.Walk.{kept_of};
ghost use Rattle.project.specs.File.{task_count};
ghost use Rattle.project.specs.Reading.{reading_of};
ghost use Rattle.project.specs.Bodies.{accepted};
ghost use Rattle.project.specs.Tasks.{tasks_of, file_shape};
ghost use Rattle.file_pairs.specs.FilePairs.{first_full, table_of};
ghost use Rattle.file_pairs.specs.Found.{AllFound, NumbersFound};

use block_rows::held::Held;
use cache::blocks::CacheShape;
use graphs::task_rows::task_rows;
use pairs::ends::Ends;
use project::answers::{Check, Refusal};
use reader::task_body;
use reader::tasks::task_byte;
use task_pairs::meet_task;

// The numbers of the task of a body, each raised to its pair number preempted by that task; true where a block has too many states. Told only where
// the end rows are those of some tasks. Left open are the area, and the numbers against tasks with too many reaching states.
fn task_numbers(
    body: &[u8],
    shape: CacheShape,
    area: &mut [u16],
    ends: &Ends,
    numbers: &mut [u16],
) -> bool
    requires { (kept_of (decode body.now) ≡ true) × Holds ends.now.w shape × (length area.old ≡ area_length ends.now.w) × (length numbers.old ≡ 8) }
    ensures { (length area.new ≡ area_length ends.now.w) × ((ts : List Task) → AllFound (shaped ends.now.w shape) ts ends.now
        → NumbersFound (shaped ends.now.w shape) ts ends.now.tasks (task_of (decode body.now)) numbers.old numbers.new result) }
{
    let w = ends.w;
    let mut reached = [0usize; 24];
    let mut lived = [0usize; 24];
    if task_rows(body, shape, w, area, &mut reached, &mut lived) {
        return true;
    }
    let kind = 24 * (32 * w);
    let reaching = Held {
        w,
        rows: &area[0..kind],
        counts: &reached,
    };
    let live = Held {
        w,
        rows: &area[kind..kind + kind],
        counts: &lived,
    };
    meet_task(body, shape, &reaching, &live, ends, numbers);
    false
}

// The pair numbers of each task of an accepted file, or the lowest task of which a block has too many states. A task's own number is 32 while its
// numbers are found, which no row raises, so that the task is not met by its own end rows. Left open are the numbers after a refusal, and the area.
pub fn find_numbers(
    file: &[u8],
    shape: CacheShape,
    area: &mut [u16],
    ends: &Ends,
    numbers: &mut [u16],
) -> Result<(), Refusal>
    requires { (accepted (reading_of file.now) ≡ true) × (shape ≡ file_shape file.now) × Holds ends.now.w shape × (ends.now.tasks ≡ task_count file.now)
        × (length area.old ≡ area_length ends.now.w) × AllFound (shaped ends.now.w shape) (tasks_of file.now) ends.now
        × (numbers.old ≡ replicate 64 0) }
    ensures { (length area.new ≡ area_length ends.now.w) × (result ≡ first_full (shaped ends.now.w shape) 0 (tasks_of file.now))
        × (result ≡ Ok tt → numbers.new ≡ table_of file.now) }
{
    // By number: task i has a row of the numbers, and a body that is found by its number.
    for i in 0..ends.tasks {
        numbers[9 * i] = 32;
        if task_numbers(
            task_body(file, i),
            shape,
            area,
            ends,
            &mut numbers[8 * i..8 * i + 8],
        ) {
            return Err(Refusal {
                check: Check::TooManyStates,
                task: task_byte(i),
            });
        }
        numbers[9 * i] = 0;
    }
    Ok(())
}
