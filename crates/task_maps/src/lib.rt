// What the passes need of each task of a file, found once: where its blocks begin, the sets of their successors, and the set of its unmasked blocks.
#![tactic(auto)]

ghost use Rattle.std.specs.Prelude.{◌≡◌, true, ◌<◌};
ghost use Rattle.project.specs.File.{task_count, body_of};
ghost use Rattle.project.specs.Reading.{reading_of};
ghost use Rattle.project.specs.Bodies.{accepted};
ghost use Rattle.task_maps.specs.TaskMaps.{IsMapOf, HasMaps};

use body::jumps::jumps;
use body::masks::unmasked_blocks;
use body::{BodyWalk, kept_walk};
use reader::task_body;

// Of one task: where its blocks begin, the sets of their successors, and the set of its unmasked blocks.
#[derive(Clone, Copy)]
pub struct TaskMap {
    pub starts: [usize; 24],
    pub jumps: [u32; 24],
    pub unmasked: u32,
}

// What stands in the place of a task that the file doesn't have.
const NO_MAP: TaskMap = TaskMap {
    starts: [0; 24],
    jumps: [0; 24],
    unmasked: 0,
};

// The walk of the body of the task numbered j.
fn task_walk(file: &[u8], j: usize) -> BodyWalk<'_>
    requires { (accepted (reading_of file.now) ≡ true) × (j < task_count file.now) }
    ensures { result.body.now ≡ body_of file.now j }
{
    kept_walk(task_body(file, j))
}

// The map of the task numbered j of an accepted file.
fn map_of(file: &[u8], j: usize) -> TaskMap
    requires { (accepted (reading_of file.now) ≡ true) × (j < task_count file.now) }
    ensures { IsMapOf (body_of file.now j) result }
{
    let walked = task_walk(file, j);
    TaskMap {
        starts: walked.starts,
        jumps: jumps(&walked),
        unmasked: unmasked_blocks(walked.body),
    }
}

// The map of each task of an accepted file. The places of tasks that the file doesn't have are left open.
pub fn task_maps(file: &[u8], tasks: usize) -> [TaskMap; 8]
    requires { (accepted (reading_of file.now) ≡ true) × (tasks ≡ task_count file.now) }
    ensures { HasMaps file.now result }
{
    let mut maps = [NO_MAP; 8];
    // By number: the number is the task whose body is read.
    for j in 0..tasks {
        maps[j] = map_of(file, j);
    }
    maps
}
