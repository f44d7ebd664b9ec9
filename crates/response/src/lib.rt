// The response time of one task: the least number that meets the equation of document 02, Point 8, or 0 where there is none up to the deadline.
#![tactic(auto)]

ghost use Rattle.std.specs.Prelude.{◌≡◌, ℕ, ◌≤◌, ◌<◌, ◌+◌, ◌^◌, get_or, length};
ghost use Rattle.response.specs.Response.{ceil, g, cost, demand, answer};
ghost use Rattle.response.specs.Iteration.{load, earliest_of, Below, Bounded};
ghost use Rattle.response.specs.Times.{met, with_response, no_times, timed, times_response, TaskTimes, table_pair};

// A task's execution time, period and deadline, its response time, and the late mark: 1 where it is late, else 0. The mark is a byte, so that any
// one that a C program leaves there can be read.
#[repr(C)]
#[derive(Clone, Copy)]
pub struct Record {
    pub c: u32,
    pub t: u32,
    pub d: u32,
    pub r: u32,
    pub late: u8,
}

// The times of up to eight tasks, and how many there are.
#[derive(Clone, Copy)]
pub struct Times {
    pub c: [u64; 8],
    pub t: [u64; 8],
    pub d: [u64; 8],
    pub count: usize,
}

// The largest time.
pub const LARGEST_TIME: u64 = 1000000;

// One, in shares of a task's time.
const WHOLE: u64 = 1073741824;

// ceil(r / period).
fn releases(r: u64, period: u64) -> u64
    requires { (0 < period) × (r ≤ 2 ^ 62) × (period ≤ 2 ^ 62) }
    ensures { (result ≡ ceil r period) × (result ≤ r) }
{
    (r + (period - 1)) / period
}

// The tasks above one task: how many, and of each the period and what a release of it costs that task.
#[derive(Clone, Copy)]
struct Higher {
    periods: [u64; 8],
    costs: [u64; 8],
    count: usize,
}

impl Higher {
    // What a task of the execution time c and the higher tasks ask for in a time of r.
    fn asked(&self, c: u64, r: u64) -> u64
        requires { Bounded self.now × (c ≤ 1000000) × (r ≤ 1000000) }
        ensures { result ≡ demand c self.now.periods self.now.costs self.now.count r }
    {
        let mut sum = c;
        // By index: the period and the cost of a task are read at the same place.
        for j in 0..self.count {
            sum += releases(r, self.periods[j]) * self.costs[j];
        }
        sum
    }

    // The shares of its time that the higher tasks ask for, each rounded down.
    fn shares(&self) -> u64
        requires { Bounded self.now }
        ensures { result ≡ load self.now.periods self.now.costs self.now.count }
    {
        let mut sum: u64 = 0;
        // By index: the period and the cost of a task are read at the same place.
        for j in 0..self.count {
            sum += self.costs[j] * WHOLE / self.periods[j];
        }
        sum
    }

    // A number not above any that meets the equation: c / (1 - the shares), rounded up. Where the shares are the whole time or more, no number
    // meets the equation, and one above each deadline will do.
    fn earliest(&self, c: u64) -> u64
        requires { Bounded self.now × (0 < c) × (c ≤ 1000000) }
        ensures { (result ≡ earliest_of c self.now.periods self.now.costs self.now.count)
            × Below (demand c self.now.periods self.now.costs self.now.count) result }
    {
        let taken = self.shares();
        if WHOLE <= taken {
            return LARGEST_TIME + 1;
        }
        releases(c * WHOLE, WHOLE - taken)
    }

    // The least number up to d that meets the equation, if there is one.
    fn response(&self, c: u64, d: u64) -> Option<u64>
        requires { Bounded self.now × (0 < c) × (c ≤ 1000000) × (d ≤ 1000000) }
        ensures { result ≡ met (answer (demand c self.now.periods self.now.costs self.now.count) d) }
    {
        let mut r = self.earliest(c);
        // By `while`: the next R is told by this one.
        while r <= d {
            let next = self.asked(c, r);
            if next == r {
                return Some(r);
            }
            r = next;
        }
        None
    }
}

// The pair numbers by j of the tasks j + 1 to i.
fn pairs_by(numbers: &[u16], i: usize, j: usize) -> u64
    requires { (length numbers.now ≡ 64) × (i < 8) × (j < i) }
    ensures { (result ≡ g (table_pair numbers.now) i j) × (result ≤ 524280) }
{
    let mut sum: u64 = 0;
    // By index: the numbers of a column stand eight places apart.
    for k in 0..i - j {
        sum += u64::from(numbers[8 * (j + 1 + k) + j]);
    }
    sum
}

// The tasks above i: each costs its execution time and what its preemptions cost.
fn higher_than(times: &Times, numbers: &[u16], penalty: u64, i: usize) -> Higher
    requires { (length numbers.now ≡ 64) × (i < 8) × (penalty ≤ 1000) × ((j : ℕ) → j < i → TaskTimes times.now j) }
    ensures { Bounded result × (result.periods ≡ times.now.t) × (result.count ≡ i)
        × ((j : ℕ) → j < i → get_or result.costs j 0 ≡ cost (λ k. get_or times.now.c k 0) (table_pair numbers.now) penalty i j) }
{
    let mut costs = [0u64; 8];
    // By number: the cost of a task is of its time and of a column of numbers.
    for j in 0..i {
        costs[j] = times.c[j] + penalty * pairs_by(numbers, i, j);
    }
    Higher {
        periods: times.t,
        costs,
        count: i,
    }
}

// R of task i, or none where it is late.
fn response_of(times: &Times, numbers: &[u16], penalty: u64, i: usize) -> Option<u64>
    requires { (length numbers.now ≡ 64) × (i < 8) × (penalty ≤ 1000) × ((j : ℕ) → j < i + 1 → TaskTimes times.now j) }
    ensures { (result ≡ met (times_response times.now (table_pair numbers.now) penalty i))
        × (times_response times.now (table_pair numbers.now) penalty i ≤ 1000001) }
{
    higher_than(times, numbers, penalty, i).response(times.c[i], times.d[i])
}

// The record with R and the late mark set; the times stay.
pub fn answered(task: Record, times: &Times, numbers: &[u16], penalty: u64, i: usize) -> Record
    requires { (length numbers.now ≡ 64) × (i < 8) × (penalty ≤ 1000) × ((j : ℕ) → j < i + 1 → TaskTimes times.now j) }
    ensures { result ≡ with_response task (times_response times.now (table_pair numbers.now) penalty i) }
{
    let (r, late) = match response_of(times, numbers, penalty, i) {
        Some(r) => (r as u32, 0),
        None => (0, 1),
    };
    Record { r, late, ..task }
}

impl Times {
    // No times yet, of `count` tasks.
    pub fn none(count: usize) -> Times
        ensures { result ≡ no_times count }
    {
        Times {
            c: [0; 8],
            t: [0; 8],
            d: [0; 8],
            count,
        }
    }

    // The times of task i become those of its record.
    pub fn set(&mut self, i: usize, task: &Record)
        requires { i < 8 }
        ensures { self.new ≡ timed self.old i task.now }
    {
        self.c[i] = u64::from(task.c);
        self.t[i] = u64::from(task.t);
        self.d[i] = u64::from(task.d);
    }
}
