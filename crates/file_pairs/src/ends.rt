// The end rows of all tasks of a file.
ghost use Rattle.std.specs.Prelude.{◌≡◌, true, ◌*◌, ◌≤◌, ◌<◌, length, replicate};
ghost use Rattle.cache.specs.Shape.{shaped, Holds};
ghost use Rattle.rows.specs.Rows.{Width, kind_length, area_length};
ghost use Rattle.body.specs.Decode.{decode, task_of};
ghost use Rattle.body.specs.Walk.{kept_of};
ghost use Rattle.project.specs.File.{task_count};
ghost use Rattle.project.specs.Reading.{reading_of};
ghost use Rattle.project.specs.Bodies.{accepted};
ghost use Rattle.project.specs.Tasks.{tasks_of, file_shape};
ghost use Rattle.pairs.specs.Ends.{ends_length};
ghost use Rattle.file_pairs.specs.Found.{TaskEnds, OneStored, EndsFound, NoOthers};

use body::block_count;
use cache::blocks::CacheShape;
use cache::row::Row;
use graphs::task_rows::reaching_rows;
use reader::task_body;
use row_sets::replaced::join_rows;
use rows::copy_row;

// The end rows of the task of a body, and how many they are; none where a block has too many reaching states. Left open are the order of the end rows,
// what stands after them, and the rows.
fn task_ends(body: &[u8], shape: CacheShape, w: usize, rows: &mut [u16], ends: &mut [u16]) -> usize
    requires { (kept_of (decode body.now) ≡ true) × Holds w shape × Width w × (length rows.old ≡ kind_length w) × (length ends.old ≡ 32 * w) }
    ensures { TaskEnds (shaped w shape) (task_of (decode body.now)) rows.new ends.new result }
{
    let mut counts = [0usize; 24];
    if reaching_rows(body, shape, w, rows, &mut counts) {
        return 0;
    }
    let end = block_count(body) - 1;
    let count = counts[end];
    let part = 32 * w;
    let at = part * end;
    let long = w * count;
    copy_row(&rows[at..at + long], &mut ends[0..long]);
    count
}

// A row for the end rows of task j, of which there are `count`, is stored after the end rows of all tasks; answers the cache blocks where they hold more
// than one memory block.
fn join_task(ends: &mut [u16], w: usize, j: usize, count: usize) -> u32
    requires { Width w × (length ends.old ≡ ends_length w) × (j < 8) × (count ≤ 32) }
    ensures { OneStored w j count ends.old ends.new result }
{
    let part = 32 * w;
    let at = part * j;
    let mut one = [Row::NOTHING; 32];
    let mixed = join_rows(&ends[at..at + part], count, w, &mut one[0..w]);
    let from = 8 * part + w * j;
    copy_row(&one[0..w], &mut ends[from..from + w]);
    mixed
}

// The end rows of each task of an accepted file, with a row for them: those of task j stand from 32 w j on, none where a block has too many
// reaching states. Left open are the order of the end rows, what stands after them, and the area.
pub fn find_ends(
    file: &[u8],
    shape: CacheShape,
    w: usize,
    tasks: usize,
    area: &mut [u16],
    ends: &mut [u16],
    counts: &mut [usize],
    mixed: &mut [u32],
)
    requires { (accepted (reading_of file.now) ≡ true) × (shape ≡ file_shape file.now) × Holds w shape × Width w × (tasks ≡ task_count file.now)
        × (length area.old ≡ area_length w) × (length ends.old ≡ ends_length w) × (counts.old ≡ replicate 8 0) × (mixed.old ≡ replicate 8 0) }
    ensures { (length area.new ≡ area_length w)
        × EndsFound (shaped w shape) (tasks_of file.now) tasks ends.new counts.new mixed.new
        × NoOthers (shaped w shape) (tasks_of file.now) tasks counts.new }
{
    let part = 32 * w;
    let kind = 24 * part;
    // By index: the task j has its place in each of three lists.
    for j in 0..tasks {
        let at = part * j;
        let count = task_ends(
            task_body(file, j),
            shape,
            w,
            &mut area[0..kind],
            &mut ends[at..at + part],
        );
        counts[j] = count;
        mixed[j] = join_task(ends, w, j, count);
    }
}
