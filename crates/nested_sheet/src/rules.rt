// Checks 12 and 20 of a nested sheet, read from its front: the first number at fault decides. A run reads its head and then its list, and the list
// reads runs; the lists are at most sixteen long and seven deep, so the calls lie at most eighteen to a level one within the other.
ghost use Rattle.std.specs.Prelude.{◌≡◌, ◌≤◌, length};
ghost use Rattle.nested_sheet.specs.Reading.{head_end, point_test, list_end, run_end, EndsIn, sheet_fault, told_fault};

use sheet::rules::{not_before, path_kept};

// The most runs that may lie one within the other, without the outer one.
const DEEPEST: usize = 7;

// The most runs of a list.
const RUNS: usize = 16;

// What the first number at fault is against: check 12 or check 20.
#[derive(Clone, Copy, PartialEq, Eq)]
pub enum SheetFault {
    Rules,
    Nesting,
}

// Task, path length, blocks and count of the run that begins at `at`, in a file of this many tasks; the set has the tasks of the runs around it.
fn head_end(sheet: &[u16], at: usize, tasks: usize, around: u32) -> Result<usize, SheetFault>
    requires { (tasks ≤ 8) × (at ≤ length sheet.now) }
    ensures { (result ≡ head_end tasks around sheet.now at) × EndsIn sheet.now at result }
{
    if sheet.len() <= at {
        return Err(SheetFault::Rules);
    }
    let p = usize::from(sheet[at]);
    if tasks <= p {
        return Err(SheetFault::Rules);
    }
    if around & (1 << p) != 0 {
        return Err(SheetFault::Nesting);
    }
    if sheet.len() <= at + 1 {
        return Err(SheetFault::Rules);
    }
    let long = usize::from(sheet[at + 1]);
    let from = at + 2;
    if path_kept(long, &sheet[from..]) {
        let to = from + long;
        if sheet.len() <= to {
            return Err(SheetFault::Rules);
        }
        if RUNS < usize::from(sheet[to]) {
            return Err(SheetFault::Rules);
        }
        return Ok(to + 1);
    }
    Err(SheetFault::Rules)
}

// Whether a point stands at `at`, in a path of `long` blocks, that doesn't come before the point of the position i and d references done.
fn point_kept(sheet: &[u16], at: usize, long: usize, i: usize, d: usize) -> bool
    requires { at ≤ length sheet.now }
    ensures { result ≡ point_test sheet.now long i d at }
{
    if sheet.len() < at + 2 {
        return false;
    }
    let position = usize::from(sheet[at]);
    if long <= position {
        return false;
    }
    not_before(i, d, position, usize::from(sheet[at + 1]))
}

// The run that begins at `at`; `deep` runs may lie one within the other below it.
#[cycle(list_end_run_end)]
fn run_end(
    sheet: &[u16],
    at: usize,
    tasks: usize,
    deep: usize,
    around: u32,
) -> Result<usize, SheetFault>
    requires { (tasks ≤ 8) × (at ≤ length sheet.now) }
    ensures { (result ≡ run_end tasks deep around sheet.now at) × EndsIn sheet.now at result }
{
    let next = head_end(sheet, at, tasks, around)?;
    list_end(
        sheet,
        next,
        tasks,
        deep,
        around | (1 << usize::from(sheet[at])),
        usize::from(sheet[at + 1]),
        usize::from(sheet[next - 1]),
        0,
        0,
    )
}

// A list of `left` runs that begins at `at`, in a path of `long` blocks, after the point of the position i and d references done.
#[cycle(list_end_run_end)]
fn list_end(
    sheet: &[u16],
    at: usize,
    tasks: usize,
    deep: usize,
    around: u32,
    long: usize,
    left: usize,
    i: usize,
    d: usize,
) -> Result<usize, SheetFault>
    requires { (tasks ≤ 8) × (left ≤ 16) × (at ≤ length sheet.now) }
    ensures { (result ≡ list_end tasks deep around sheet.now long left i d at) × EndsIn sheet.now at result }
{
    if left == 0 {
        return Ok(at);
    }
    if deep == 0 {
        return Err(SheetFault::Nesting);
    }
    if point_kept(sheet, at, long, i, d) {
        let next = run_end(sheet, at + 2, tasks, deep - 1, around)?;
        return list_end(
            sheet,
            next,
            tasks,
            deep,
            around,
            long,
            left - 1,
            usize::from(sheet[at]),
            usize::from(sheet[at + 1]),
        );
    }
    Err(SheetFault::Rules)
}

// Checks 12 and 20: the check that the first number at fault of a nested sheet is against, in a file of this many tasks, where there is one.
#[tactic(auto, using(crate::proofs::RunByRun::whole_laws))]
pub fn sheet_fault(sheet: &[u16], tasks: usize) -> Result<(), SheetFault>
    requires { tasks ≤ 8 }
    ensures { told_fault result ≡ sheet_fault tasks sheet.now }
{
    let next = run_end(sheet, 0, tasks, DEEPEST, 0)?;
    if next == sheet.len() {
        Ok(())
    } else {
        Err(SheetFault::Rules)
    }
}
