// Reader and Body: a project file read, and the body of a task in it.
#![tactic(auto)]

pub mod tasks;

ghost use Rattle.std.specs.Prelude.{◌≡◌, Ok, true, ◌+◌, ◌≤◌, ◌<◌, length};
ghost use Rattle.project.specs.File.{task_count, offset_of, size_of, body_of};
ghost use Rattle.project.specs.Reading.{head_check, reading_of};
ghost use Rattle.project.specs.Bodies.{accepted, place_start, place_length, body_part};
ghost use Rattle.project.specs.Tasks.{file_shape};

use cache::blocks::CacheShape;
use cache::numbers::{byte_count, count};
use cache::references::number_at;
use project::answers::{Accepted, Check, Refusal};
use project::contents::contents;
use project::head::{contents_start, head};
use tasks::check_tasks;

// The answer of Reader for a file whose first eight bytes passed their checks: checks 7 to 9.
pub fn read_bodies(file: &[u8]) -> Result<Accepted, Refusal>
    requires { head_check file.now ≡ Ok tt }
    ensures { result ≡ reading_of file.now }
{
    let n = file[5];
    let t = file[6];
    let ends = contents(file, byte_count(t)).ok_or(Check::WrongContents)?;
    check_tasks(file, byte_count(t), ends)?;
    Ok(Accepted { n, t })
}

// Reader: n and t of a file, or the check that it fails first.
pub fn read(file: &[u8]) -> Result<Accepted, Refusal>
    ensures { result ≡ reading_of file.now }
{
    head(file)?;
    read_bodies(file)
}

// The cache of an accepted file.
pub fn file_shape(file: &[u8]) -> CacheShape
    requires { accepted (reading_of file.now) ≡ true }
    ensures { result ≡ file_shape file.now }
{
    CacheShape { blocks: file[5] }
}

// Where a part of a file stands, and how long it is.
#[derive(Clone, Copy)]
pub struct BodyPlace {
    pub start: usize,
    pub length: usize,
}

// The empty part at the file's start, which stands for a body that is not there.
const NOWHERE: BodyPlace = BodyPlace {
    start: 0,
    length: 0,
};

// Where the body of a task of an accepted file stands, by the contents.
pub fn entry(file: &[u8], task: usize) -> BodyPlace
    requires { (accepted (reading_of file.now) ≡ true) × (task < task_count file.now) }
    ensures { (result.start ≡ offset_of file.now task) × (result.length ≡ size_of file.now task)
        × (result.start + result.length ≤ length file.now) }
{
    let at = contents_start(file) + 4 * task;
    BodyPlace {
        start: count(number_at(file, at)),
        length: count(number_at(file, at + 2)),
    }
}

// The body of a task of an accepted file as that part of the file, at its place there.
pub fn task_body(file: &[u8], task: usize) -> &[u8]
    requires { (accepted (reading_of file.now) ≡ true) × (task < task_count file.now) }
    ensures { (result.now ≡ body_of file.now task)
        × (result.ref_ptr.0 ≡ file.entry.ref_ptr.0) × (result.ref_ptr.1 ≡ file.entry.ref_ptr.1 + offset_of file.now task) }
{
    let found = entry(file, task);
    let from = found.start;
    let to = from + found.length;
    &file[from..to]
}

// Where the body of a task stands; an empty part at the file's start if the file isn't accepted or the task isn't below t.
pub fn place(file: &[u8], task: usize) -> BodyPlace
    ensures { (result.start ≡ place_start 1 file.now task) × (result.length ≡ place_length 1 file.now task) }
{
    match read(file) {
        Ok(accepted) if task < byte_count(accepted.t) => entry(file, task),
        _ => NOWHERE,
    }
}

// Body: the body of a task as that part of the file, at its place there; an empty part at the file's start if the file isn't accepted or the task isn't below t.
pub fn body(file: &[u8], task: usize) -> &[u8]
    ensures { (result.now ≡ body_part 1 file.now task)
        × (result.ref_ptr.0 ≡ file.entry.ref_ptr.0) × (result.ref_ptr.1 ≡ file.entry.ref_ptr.1 + place_start 1 file.now task) }
{
    let found = place(file, task);
    let from = found.start;
    let to = from + found.length;
    &file[from..to]
}
