// Nested replay: the misses of a run and of all runs within it, from an empty cache.
#![tactic(auto)]

mod checks;
mod input;
mod totals;

ghost use Rattle.std.specs.Prelude.{◌≡◌, ◌≤◌, true, Ok};
ghost use Rattle.project.specs.File.{task_count};
ghost use Rattle.project.specs.Reading.{head_check, reading_of};
ghost use Rattle.project.specs.Bodies.{accepted};
ghost use Rattle.project.specs.Tasks.{file_shape};
ghost use Rattle.nested_replay.specs.NestedReplay.{nested_replaying_of, numbers_check};

use cache::blocks::CacheShape;
use checks::check_runs;
use input::NestedInput;
use nested_sheet::rules::{SheetFault, sheet_fault};
use project::answers::{Check, Refusal};
use project::head::head;
use reader::{file_shape, read_bodies};
use task_maps::task_maps;
use totals::total_misses;

// Checks 12 and 20, in a file of this many tasks: what the first number at fault is against.
fn check_numbers(sheet: &[u16], tasks: usize) -> Result<(), Refusal>
    requires { tasks ≤ 8 }
    ensures { result ≡ numbers_check tasks sheet.now }
{
    match sheet_fault(sheet, tasks) {
        Ok(()) => Ok(()),
        Err(SheetFault::Rules) => Err(Check::SheetRules.into()),
        Err(SheetFault::Nesting) => Err(Check::TooDeep.into()),
    }
}

// The answer for an accepted file of this many tasks and this shape: the misses of all runs, or the check that fails first.
fn replay_sheet(file: &[u8], sheet: &[u16], tasks: usize, shape: CacheShape) -> Result<u64, Refusal>
    requires { (accepted (reading_of file.now) ≡ true) × (tasks ≡ task_count file.now) × (shape ≡ file_shape file.now) }
    ensures { result ≡ nested_replaying_of file.now sheet.now }
{
    check_numbers(sheet, tasks)?;
    let maps = task_maps(file, tasks);
    let input = NestedInput {
        file,
        sheet,
        maps: &maps,
        shape,
    };
    check_runs(&input)?;
    Ok(total_misses(&input))
}

// The answer for a file whose first eight bytes passed their checks.
fn replay_bodies(file: &[u8], sheet: &[u16]) -> Result<u64, Refusal>
    requires { head_check file.now ≡ Ok tt }
    ensures { result ≡ nested_replaying_of file.now sheet.now }
{
    let accepted = read_bodies(file)?;
    replay_sheet(file, sheet, usize::from(accepted.t), file_shape(file))
}

// Nested replay: the total of the nested run that the sheet says, from an empty cache, or the check that fails first.
pub fn nested_replay(file: &[u8], sheet: &[u16]) -> Result<u64, Refusal>
    ensures { result ≡ nested_replaying_of file.now sheet.now }
{
    head(file)?;
    replay_bodies(file, sheet)
}
