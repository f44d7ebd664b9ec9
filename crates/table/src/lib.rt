// Table: the pair numbers of all tasks of a file.
#![tactic(auto)]

ghost use Rattle.std.specs.Prelude.{◌≡◌, Ok, true, length};
ghost use Rattle.cache.specs.Shape.{shaped, Holds};
ghost use Rattle.rows.specs.Rows.{Width, area_length};
ghost use Rattle.project.specs.File.{task_count};
ghost use Rattle.project.specs.Reading.{head_check, reading_of};
ghost use Rattle.project.specs.Bodies.{accepted};
ghost use Rattle.project.specs.Checklist.{left_by};
ghost use Rattle.project.specs.Tasks.{tasks_of, file_shape};
ghost use Rattle.pairs.specs.Ends.{ends_length};
ghost use Rattle.file_pairs.specs.FilePairs.{first_full, table_of};
ghost use Rattle.table.specs.Table.{table_answer, table_after};

use area::AREA_LENGTH;
use cache::blocks::CacheShape;
use cache::numbers::byte_count;
use file_pairs::ends::find_ends;
use file_pairs::numbers::find_numbers;
use pairs::ends::Ends;
use project::answers::{Check, Refusal};
use project::head::head;
use reader::{file_shape, read_bodies};

// The table of an accepted file, gathered in an area for rows of w places, with room for 32 end rows of each of 8 tasks and the one row for them; check
// 11. What the area and this room hold afterwards is free.
fn fill_table(
    file: &[u8],
    shape: CacheShape,
    w: usize,
    tasks: usize,
    area: &mut [u16],
    ends: &mut [u16],
    table: &mut [u16],
) -> Result<(), Refusal>
    requires { (accepted (reading_of file.now) ≡ true) × (shape ≡ file_shape file.now) × Holds w shape × Width w × (tasks ≡ task_count file.now)
        × (length area.old ≡ area_length w) × (length ends.old ≡ ends_length w) × (length table.old ≡ 64) }
    ensures { (result ≡ first_full (shaped w shape) 0 (tasks_of file.now))
        × (table.new ≡ left_by (first_full (shaped w shape) 0 (tasks_of file.now)) (table_of file.now) table.old)
        × (length area.new ≡ area_length w) }
{
    let mut counts = [0usize; 8];
    let mut mixed = [0u32; 8];
    let mut numbers = [0u16; 64];
    find_ends(file, shape, w, tasks, area, ends, &mut counts, &mut mixed);
    let found = Ends {
        w,
        rows: ends,
        counts: &counts,
        mixed: &mixed,
        tasks,
    };
    find_numbers(file, shape, area, &found, &mut numbers)?;
    table.copy_from_slice(&numbers);
    Ok(())
}

// The answer of Table for a file whose first eight bytes passed their checks, with lists of the right lengths. What the work area holds
// afterwards is free.
fn table_of_bodies(file: &[u8], area: &mut [u16], table: &mut [u16]) -> Result<(), Refusal>
    requires { (head_check file.now ≡ Ok tt) × (length area.old ≡ area_length 16) × (length table.old ≡ 64) }
    ensures { (result ≡ table_answer 16 file.now area.old table.old)
        × (table.new ≡ table_after 16 file.now area.old table.old)
        × (length area.new ≡ area_length 16) }
{
    let accepted = read_bodies(file)?;
    let mut ends = [0u16; 4224];
    fill_table(
        file,
        file_shape(file),
        16,
        byte_count(accepted.t),
        area,
        &mut ends,
        table,
    )
}

// Table: the pair number of task i preempted by task j at 8 i + j, or the check that fails first. What the work area holds afterwards is free.
// The first bytes are checked here, so that a file that they refuse costs no call.
pub fn table(file: &[u8], area: &mut [u16], table: &mut [u16]) -> Result<(), Refusal>
    ensures { (result ≡ table_answer 16 file.now area.old table.old)
        × (table.new ≡ table_after 16 file.now area.old table.old)
        × (length area.new ≡ length area.old) }
{
    if area.len() != AREA_LENGTH || table.len() != 64 {
        return Err(Check::ListLength.into());
    }
    head(file)?;
    table_of_bodies(file, area, table)
}
