// Checks 13 and 16 on a nested sheet, over all runs in one pass. A run is checked and then its list, and the list checks runs.
ghost use Rattle.std.specs.Prelude.{◌≡◌, true, ◌≤◌, ◌<◌, length, get_or};
ghost use Rattle.cache.specs.Sets.{in_set};
ghost use Rattle.body.specs.Decode.{decode, task_of};
ghost use Rattle.body.specs.Jumps.{unmasked_set};
ghost use Rattle.project.specs.File.{task_count};
ghost use Rattle.project.specs.Reading.{reading_of};
ghost use Rattle.project.specs.Bodies.{accepted};
ghost use Rattle.nested_sheet.specs.NestedRuns.{list_of};
ghost use Rattle.nested_sheet.specs.NestedSheet.{ListInRules};
ghost use Rattle.task_maps.specs.TaskMaps.{HasMaps};
ghost use Rattle.nested_replay.specs.Passes.{checked_run, checked_list, with_first, runs_check, RunReads};

use crate::input::NestedInput;
use body::block_count;
use project::answers::{Check, Refusal};
use reader::task_body;
use runs::path::BodyPath;
use sheet::complete::steps_to_end;
use sheet_checks::right_done;

// What the pass tells of a run or a list whose paths are complete, with right numbers of references done: the place after it in the sheet, and whether
// all its points lie in unmasked blocks.
#[derive(Clone, Copy)]
pub struct Right {
    pub next: usize,
    pub unmasked: bool,
}

// Whether the block at a position of a path is one of the set of unmasked blocks.
fn point_unmasked(set: u32, path: &[u16], position: usize) -> bool
    requires { (position < length path.now) × (get_or path.now position 0 < 24) }
    ensures { result ≡ in_set set (get_or path.now position 0) }
{
    let block = usize::from(path[position]);
    set & (1 << block) != 0
}

// What is told of two parts of a list, where the first is right, with its points in unmasked blocks or not, and the other was told of.
fn joined(first: bool, other: Option<Right>) -> Option<Right>
    ensures { result ≡ with_first first other }
{
    let Right { next, unmasked } = other?;
    Some(Right {
        next,
        unmasked: first && unmasked,
    })
}

// The run that begins at `at`; its runs lie at most `deep` one within the other. None where a path isn't complete or a number of references done is wrong.
#[cycle(check_list_check_run)]
fn check_run(input: &NestedInput<'_>, at: usize, deep: usize) -> Option<Right>
    requires { RunReads input.now.file.now input.now.sheet.now deep at × HasMaps input.now.file.now input.now.maps.now }
    ensures { result ≡ checked_run input.now.file.now input.now.sheet.now deep at }
{
    let sheet = input.sheet;
    let p = usize::from(sheet[at]);
    let body = task_body(input.file, p);
    let map = &input.maps[p];
    let from = at + 2;
    let to = from + usize::from(sheet[at + 1]);
    let path = &sheet[from..to];
    if !steps_to_end(&map.jumps, block_count(body), path) {
        return None;
    }
    let on = BodyPath {
        body,
        starts: &map.starts,
        path,
    };
    check_list(
        input,
        &on,
        map.unmasked,
        to + 1,
        usize::from(sheet[to]),
        deep,
    )
}

// The list of `left` runs that begins at `at`, in a run along the path; the set has the unmasked blocks of its task.
#[cycle(check_list_check_run)]
fn check_list(
    input: &NestedInput<'_>,
    on: &BodyPath<'_, '_>,
    set: u32,
    at: usize,
    left: usize,
    deep: usize,
) -> Option<Right>
    requires { (accepted (reading_of input.now.file.now) ≡ true) × (set ≡ unmasked_set (task_of (decode on.now.body.now)))
        × ListInRules (task_count input.now.file.now) (length on.now.path.now) (list_of deep input.now.sheet.now left at).runs
        × ((list_of deep input.now.sheet.now left at).next ≤ length input.now.sheet.now) × HasMaps input.now.file.now input.now.maps.now }
    ensures { result ≡ checked_list input.now.file.now (task_of (decode on.now.body.now)) on.now.path.now
        (list_of deep input.now.sheet.now left at) }
{
    if left == 0 {
        return Some(Right {
            next: at,
            unmasked: true,
        });
    }
    if deep == 0 {
        return Some(Right {
            next: at,
            unmasked: true,
        });
    }
    let sheet = input.sheet;
    let position = usize::from(sheet[at]);
    if !right_done(on, position, usize::from(sheet[at + 1])) {
        return None;
    }
    let inner = check_run(input, at + 2, deep - 1)?;
    let rest = check_list(input, on, set, inner.next, left - 1, deep);
    joined(
        point_unmasked(set, on.path, position),
        joined(inner.unmasked, rest),
    )
}

// Checks 13 and 16 on all runs of a sheet that keeps the rules of check 12.
pub fn check_runs(input: &NestedInput<'_>) -> Result<(), Refusal>
    requires { RunReads input.now.file.now input.now.sheet.now 7 0 × HasMaps input.now.file.now input.now.maps.now }
    ensures { result ≡ runs_check input.now.file.now input.now.sheet.now }
{
    let Some(all) = check_run(input, 0, 7) else {
        return Err(Check::WrongPath.into());
    };
    if !all.unmasked {
        return Err(Check::MaskedPoint.into());
    }
    Ok(())
}
