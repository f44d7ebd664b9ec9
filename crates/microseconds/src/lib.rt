// Microseconds: the time that the misses of a pair number take, exactly.
#![tactic(auto)]

ghost use Rattle.std.specs.Prelude.{◌≡◌};
ghost use Rattle.project.specs.Reading.{outside};
ghost use Rattle.microseconds.specs.Microseconds.{microseconds_check, timing_of};

use project::answers::{Check, Refusal};

// The largest pair number.
const LARGEST_NUMBER: u32 = 16;

// The largest miss penalty, in cycles.
const LARGEST_PENALTY: u32 = 1000;

// The fastest clock, in kHz.
const LARGEST_CLOCK: u32 = 1000000;

// The microseconds in which a clock of 1 kHz makes one cycle.
const KILOHERTZ_CYCLE: u32 = 1000;

// A time: `whole` + `remainder` / clock microseconds, with the remainder below the clock.
#[derive(Clone, Copy, PartialEq, Eq)]
pub struct Time {
    pub whole: u32,
    pub remainder: u32,
}

// Whether a number is outside 1 to the largest.
fn is_outside(x: u32, largest: u32) -> bool
    ensures { result ≡ outside largest x }
{
    x < 1 || largest < x
}

// Check 17: penalty and clock within their bounds, and no number over the largest.
fn check_bounds(number: u32, penalty: u32, clock: u32) -> Result<(), Refusal>
    ensures { result ≡ microseconds_check number penalty clock }
{
    if is_outside(penalty, LARGEST_PENALTY)
        || is_outside(clock, LARGEST_CLOCK)
        || LARGEST_NUMBER < number
    {
        return Err(Check::OutOfBounds.into());
    }
    Ok(())
}

// Microseconds: the time that `number` misses of `penalty` cycles each take at a clock of `clock` kHz, or check 17, which comes before any
// arithmetic.
pub fn microseconds(number: u32, penalty: u32, clock: u32) -> Result<Time, Refusal>
    ensures { result ≡ timing_of number penalty clock }
{
    check_bounds(number, penalty, clock)?;
    let product = number * penalty * KILOHERTZ_CYCLE;
    let whole = product / clock;
    let remainder = product % clock;
    Ok(Time { whole, remainder })
}
