// Checks 8 and 9 over bodies that stand one after the other in a list of bytes.
ghost use Rattle.std.specs.Prelude.{◌≡◌, Bool, List, map, ℕ, ◌<◌};
ghost use Rattle.project.specs.Checklist.{lowest};
ghost use Rattle.project.specs.Reading.{test8, test9, tasks_check};
ghost use Rattle.project.specs.Ends.{InOrder, between};
ghost use Rattle.reader.specs.Tests.{Tests};

use body::jumps::on_paths;
use body::walk;
use project::answers::{Check, Refusal};

// Check 8 of one body.
fn breaks_layout(body: &[u8]) -> bool
    ensures { result ≡ test8 body.now }
{
    walk(body).is_none()
}

// Check 9 of one body; a body that breaks its layout has no blocks.
fn off_path(body: &[u8]) -> bool
    ensures { result ≡ test9 body.now }
{
    match walk(body) {
        Some(walked) => !on_paths(&walked),
        None => false,
    }
}

// A task number as a byte.
pub fn task_byte(j: usize) -> u8
    requires { j < 8 }
    ensures { result ≡ j }
{
    j as u8
}

// One check over bodies, by its test of a body: the lowest task whose body is at fault.
fn first_at_fault<F: Fn(&[u8]) -> bool>(
    check: Check,
    bytes: &[u8],
    count: usize,
    ends: [usize; 9],
    at_fault: F,
) -> Result<(), Refusal>
    requires in_order { InOrder bytes.now ends count }
    requires callable { F.IsAlwaysCallable at_fault }
    ensures { (test : List ℕ → Bool) → Tests F.Fn at_fault test → result ≡ lowest check 0 (map test (between bytes.now ends count 0)) }
{
    for j in 0..count {
        if at_fault(&bytes[ends[j]..ends[j + 1]]) {
            return Err(Refusal {
                check,
                task: task_byte(j),
            });
        }
    }
    Ok(())
}

// Checks 8 and 9, the first for all tasks before the second.
pub fn check_tasks(bytes: &[u8], count: usize, ends: [usize; 9]) -> Result<(), Refusal>
    requires { InOrder bytes.now ends count }
    ensures { result ≡ tasks_check (between bytes.now ends count 0) }
{
    first_at_fault(Check::BrokenLayout, bytes, count, ends, breaks_layout)?;
    first_at_fault(Check::OffPath, bytes, count, ends, off_path)
}
