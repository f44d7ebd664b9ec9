// The sheet of a run that trails join to.
#![tactic(auto)]

ghost use Rattle.std.specs.Prelude.{◌≡◌, ◌∷◌, ◌++◌, ◌+◌, ◌≤◌, length, drop, Option};
ghost use Rattle.sheet.specs.Sheet.{path_numbers, sheet_numbers};
ghost use Rattle.trails.specs.Trails.{way_to};
ghost use Rattle.run_sheet.specs.Joined.{path_to, path_before, way_on, length_before, joined_run, costliest_sheet_length, HasTrail, Joins};

use trails::write::Place;

// One preemption: by this task, along the path to a place, where so many references of the preempted block are done.
#[derive(Clone, Copy)]
pub struct Preemption<'a> {
    pub by: u16,
    pub done: u16,
    pub path: Place<'a>,
}

// The run of a task that trails join to: along the path to the place `before`, where the block of the preemption is not the first, and the way on from
// the place `on`, which is one of that block; preempted in it, or not.
#[derive(Clone, Copy)]
pub struct JoinedRun<'a, 'b, 'c> {
    pub task: u16,
    pub before: Option<Place<'a>>,
    pub on: Place<'b>,
    pub preemption: Option<Preemption<'c>>,
}

// How many blocks the path has before the block of the preemption.
fn length_before(before: Option<Place>) -> usize
    ensures { result ≡ length_before before.entry }
{
    match before {
        None => 0,
        Some(place) => place.length(),
    }
}

// The blocks before the block of the preemption; the list has just room for them.
fn write_before(before: Option<Place>, out: &mut [u16])
    requires { length out.old ≡ length_before before }
    ensures { out.new ≡ path_before before.entry }
{
    if let Some(place) = before {
        place.write_to(out);
    }
}

// The task, and the length and the blocks of its path; the list has just room for them.
fn write_own(run: &JoinedRun, out: &mut [u16])
    requires { (length_before run.now.before ≤ 768) × HasTrail run.now.on.trails.now run.now.on.at
        × (length out.old ≡ 2 + length (path_before run.now.before ++ way_on run.now.on.trails.now run.now.on.at)) }
    ensures { out.new ≡ run.now.task ∷ path_numbers (path_before run.now.before ++ way_on run.now.on.trails.now run.now.on.at) }
{
    let long = out.len();
    out[0] = run.task;
    out[1] = (long - 2) as u16;
    let split = 2 + length_before(run.before);
    write_before(run.before, &mut out[2..split]);
    out[split] = run.on.block();
    run.on.write_on(&mut out[split + 1..long]);
}

// One preemption at this position of the path; the list has just room for it.
fn write_preemption(position: u16, preemption: &Preemption, out: &mut [u16])
    requires { HasTrail preemption.now.path.trails.now preemption.now.path.at
        × (length out.old ≡ 5 + length (path_to preemption.now.path.trails.now preemption.now.path.at)) }
    ensures { out.new ≡ 1 ∷ position ∷ preemption.now.done ∷ preemption.now.by
        ∷ path_numbers (path_to preemption.now.path.trails.now preemption.now.path.at) }
{
    let long = out.len();
    out[0] = 1;
    out[1] = position;
    out[2] = preemption.done;
    out[3] = preemption.by;
    out[4] = (long - 5) as u16;
    preemption.path.write_to(&mut out[5..long]);
}

// The sheet of the run; the places after it keep theirs. Answers its length.
pub fn write_sheet(run: &JoinedRun, sheet: &mut [u16]) -> usize
    requires { Joins run.now × (costliest_sheet_length ≤ length sheet.old) }
    ensures { (result ≡ length (sheet_numbers (joined_run run.now)))
        × (sheet.new ≡ sheet_numbers (joined_run run.now) ++ drop (length (sheet_numbers (joined_run run.now))) sheet.old) }
{
    let before = length_before(run.before);
    let split = 2 + before + run.on.length();
    write_own(run, &mut sheet[0..split]);
    match run.preemption {
        None => {
            sheet[split] = 0;
            split + 1
        }
        Some(preemption) => {
            let stop = split + 5 + preemption.path.length();
            write_preemption(before as u16, &preemption, &mut sheet[split..stop]);
            stop
        }
    }
}
