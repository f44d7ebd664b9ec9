// What is to be set in a response time list: the times, Table's numbers, the penalty and how many records get their R, or the check that fails first.
ghost use Rattle.std.specs.Prelude.{◌≡◌, ◌≤◌, ◌<◌, length};
ghost use Rattle.response.specs.Times.{with_response};
ghost use Rattle.project.specs.Reading.{outside};
ghost use Rattle.responses.specs.Responses.{largest_time, any};
ghost use Rattle.responses.specs.Plan.{wrong_at, times_test21, plan_of, plan_response, Ready};

use cache::numbers::byte_count;
use project::answers::{Check, Refusal};
use response::{LARGEST_TIME, Record, Times, answered};
use table::table;

// The largest miss penalty.
const LARGEST_PENALTY: u64 = 1000;

// As many records as `count` says, the first ones, get their R by the other fields.
#[derive(Clone, Copy)]
pub struct Plan {
    pub times: Times,
    pub numbers: [u16; 64],
    pub penalty: u64,
    pub count: usize,
}

// Where no record is to be set: the check that fails first, beside the times and what Table left of its numbers.
#[derive(Clone, Copy)]
pub struct Unplanned {
    pub refusal: Refusal,
    pub times: Times,
    pub numbers: [u16; 64],
}

// The refusal alone.
impl From<Unplanned> for Refusal {
    ghost from_gives = { λ unplanned result. result ≡ unplanned.refusal };

    fn from(unplanned: Unplanned) -> Refusal {
        unplanned.refusal
    }
}

// Whether a time is outside 1 to the largest.
fn is_outside(x: u64) -> bool
    ensures { result ≡ outside largest_time x }
{
    x < 1 || LARGEST_TIME < x
}

// Whether a time of task i is out of its bounds, or its deadline over its period.
fn is_wrong(times: &Times, i: usize) -> bool
    requires { i < 8 }
    ensures { result ≡ wrong_at times.now i }
{
    is_outside(times.c[i])
        || is_outside(times.t[i])
        || is_outside(times.d[i])
        || times.t[i] < times.d[i]
}

// Whether a time of the first `tasks` tasks is out of its bounds, or a deadline over its period.
fn are_wrong(times: &Times, tasks: usize) -> bool
    requires { tasks ≤ 8 }
    ensures { result ≡ any tasks (wrong_at times.now) }
{
    // By number: a task has a time in each of three lists.
    for i in 0..tasks {
        if is_wrong(times, i) {
            return true;
        }
    }
    false
}

// Check 21.
fn is_refused(times: &Times, penalty: u64, tasks: usize) -> bool
    requires { tasks ≤ 8 }
    ensures { result ≡ times_test21 tasks times.now penalty }
{
    times.count != tasks || LARGEST_PENALTY < penalty || are_wrong(times, tasks)
}

// What is to be set in the list that the times are of, or the check that fails first. What the work area holds afterwards is free.
pub fn planned(
    file: &[u8],
    area: &mut [u16],
    times: &Times,
    penalty: u32,
) -> Result<Plan, Unplanned>
    ensures { (result ≡ plan_of 16 file.now area.old times.now penalty)
        × (length area.new ≡ length area.old) }
{
    let mut numbers = [0u16; 64];
    if let Err(refusal) = table(file, area, &mut numbers) {
        return Err(Unplanned {
            refusal,
            times: *times,
            numbers,
        });
    }
    let penalty = u64::from(penalty);
    if is_refused(times, penalty, byte_count(file[6])) {
        return Err(Unplanned {
            refusal: Check::WrongTimes.into(),
            times: *times,
            numbers,
        });
    }
    Ok(Plan {
        times: *times,
        numbers,
        penalty,
        count: times.count,
    })
}

// The record of task i with its R.
pub fn record_by(task: Record, i: usize, plan: &Plan) -> Record
    requires { Ready plan.now × (i < plan.now.count) }
    ensures { result ≡ with_response task (plan_response plan.now i) }
{
    answered(task, &plan.times, &plan.numbers, plan.penalty, i)
}
