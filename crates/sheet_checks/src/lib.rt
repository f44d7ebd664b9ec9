// Checks 12, 13 and 16 of a run sheet: its rules, whether each path is complete and each number of references done is right, and whether the
// preemptions avoid masked blocks.
#![tactic(auto)]

ghost use Rattle.std.specs.Prelude.{◌≡◌, true, ◌&&◌, ◌<◌, length};
ghost use Rattle.model.specs.Tasks.{task};
ghost use Rattle.body.specs.Decode.{decode, task_of};
ghost use Rattle.body.specs.Jumps.{unmasked_set};
ghost use Rattle.project.specs.File.{task_count};
ghost use Rattle.project.specs.Reading.{reading_of};
ghost use Rattle.project.specs.Bodies.{accepted};
ghost use Rattle.project.specs.Tasks.{tasks_of};
ghost use Rattle.sheet.specs.Parsed.{complete_path, each_passes, complete_by, complete_all, right_done, done_all, unmasked_all};
ghost use Rattle.runs.specs.Parts.{references_at};
ghost use Rattle.sheet_checks.specs.SheetChecks.{run_in, sheet_check, Passed12, Passed13};

use body::kept_walk;
use body::masks::unmasked_blocks;
use project::answers::{Check, Refusal};
use reader::task_body;
use runs::path::BodyPath;
use sheet::complete::complete;
use sheet::rules::sheet_kept;

// Whether a path of the task numbered j is complete.
fn complete_in(file: &[u8], j: usize, path: &[u16]) -> bool
    requires { (accepted (reading_of file.now) ≡ true) × (j < task_count file.now) }
    ensures { result ≡ complete_path (task (tasks_of file.now) j) path.now }
{
    complete(task_body(file, j), path)
}

// Whether the path of each preemption is complete.
fn each_complete(file: &[u8], sheet: &[u16]) -> bool
    requires { Passed12 file.now sheet.now }
    ensures { result ≡ each_passes (complete_by (tasks_of file.now)) (run_in file.now sheet.now).preemptions }
{
    let mut at = 3 + usize::from(sheet[1]);
    // By place: where the next preemption begins is told by the length of this one's path.
    while at < sheet.len() {
        let from = at + 4;
        let to = from + usize::from(sheet[at + 3]);
        if complete_in(file, usize::from(sheet[at + 2]), &sheet[from..to]) {
            at = to;
        } else {
            return false;
        }
    }
    true
}

// Check 13, the paths: whether all paths of the run are complete.
fn all_complete(file: &[u8], sheet: &[u16]) -> bool
    requires { Passed12 file.now sheet.now }
    ensures { result ≡ complete_all (tasks_of file.now) (run_in file.now sheet.now) }
{
    let end = 2 + usize::from(sheet[1]);
    if complete_in(file, usize::from(sheet[0]), &sheet[2..end]) {
        return each_complete(file, sheet);
    }
    false
}

// Whether so many references may be done where a preemption comes in the block at a position of a path: from 1 to all, or 0 where it has none.
pub fn right_done(on: &BodyPath<'_, '_>, position: usize, done: usize) -> bool
    requires { position < length on.now.path.now }
    ensures { result ≡ right_done (references_at (task_of (decode on.now.body.now)) on.now.path.now position) done }
{
    let all = on.count_on(position);
    if done == 0 { all == 0 } else { done <= all }
}

// Check 13, the points: whether the number of references done is right at each preemption, masked or not. A point's block is one of the own path,
// whose blocks stand from place 2 on.
fn all_done(file: &[u8], sheet: &[u16]) -> bool
    requires { Passed12 file.now sheet.now × (complete_all (tasks_of file.now) (run_in file.now sheet.now) ≡ true) }
    ensures { result ≡ done_all (tasks_of file.now) (run_in file.now sheet.now) }
{
    let long = usize::from(sheet[1]);
    let body = task_body(file, usize::from(sheet[0]));
    let path = &sheet[2..2 + long];
    let walked = kept_walk(body);
    let starts = &walked.starts;
    let on = BodyPath { body, starts, path };
    let mut at = 3 + long;
    // By place: where the next preemption begins is told by the length of this one's path.
    while at < sheet.len() {
        if right_done(&on, usize::from(sheet[at]), usize::from(sheet[at + 1])) {
            at = at + 4 + usize::from(sheet[at + 3]);
        } else {
            return false;
        }
    }
    true
}

// Check 13: whether all paths of the run are complete and all its numbers of references done are right.
fn paths_and_points(file: &[u8], sheet: &[u16]) -> bool
    requires { Passed12 file.now sheet.now }
    ensures { result ≡ complete_all (tasks_of file.now) (run_in file.now sheet.now)
        && done_all (tasks_of file.now) (run_in file.now sheet.now) }
{
    if all_complete(file, sheet) {
        return all_done(file, sheet);
    }
    false
}

// The set of the unmasked blocks of the task numbered j.
fn unmasked_in(file: &[u8], j: usize) -> u32
    requires { (accepted (reading_of file.now) ≡ true) × (j < task_count file.now) }
    ensures { result ≡ unmasked_set (task (tasks_of file.now) j) }
{
    unmasked_blocks(task_body(file, j))
}

// Check 16: whether each preemption comes in an unmasked block.
fn all_unmasked(file: &[u8], sheet: &[u16]) -> bool
    requires { Passed13 file.now sheet.now }
    ensures { result ≡ unmasked_all (tasks_of file.now) (run_in file.now sheet.now) }
{
    let set = unmasked_in(file, usize::from(sheet[0]));
    let mut at = 3 + usize::from(sheet[1]);
    // By place: where the next preemption begins is told by the length of this one's path.
    while at < sheet.len() {
        let position = usize::from(sheet[at]);
        let block = usize::from(sheet[2 + position]);
        if set & (1 << block) == 0 {
            return false;
        }
        at = at + 4 + usize::from(sheet[at + 3]);
    }
    true
}

// The checks on the sheet, with an accepted file of this many tasks.
pub fn check_sheet(file: &[u8], sheet: &[u16], tasks: usize) -> Result<(), Refusal>
    requires { (accepted (reading_of file.now) ≡ true) × (tasks ≡ task_count file.now) }
    ensures { result ≡ sheet_check file.now sheet.now }
{
    if !sheet_kept(sheet, tasks) {
        return Err(Check::SheetRules.into());
    }
    if !paths_and_points(file, sheet) {
        return Err(Check::WrongPath.into());
    }
    if !all_unmasked(file, sheet) {
        return Err(Check::MaskedPoint.into());
    }
    Ok(())
}
