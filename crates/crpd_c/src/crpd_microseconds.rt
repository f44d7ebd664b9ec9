// Microseconds for C.
ghost use Rattle.std.specs.Prelude.{◌≡◌};
ghost use Rattle.crpd_c.specs.Microseconds.{microseconds_status, microseconds_left};

use c_answers::timing::tell_timing;
use microseconds::microseconds;

// Microseconds: 0, or 17; `answer` gets the task that it names (255, for none), the whole microseconds and the remainder (0 and 0 after a
// refusal).
// An `answer` that has not three places gives 1 and is left as it was.
#[unsafe(no_mangle)]
pub extern "C" fn crpd_microseconds(number: u32, penalty: u32, clock: u32, answer: &mut [u32]) -> u8
    ensures { (result ≡ microseconds_status number penalty clock answer.old)
        × (answer.new ≡ microseconds_left number penalty clock answer.old) }
{
    tell_timing(answer, microseconds(number, penalty, clock))
}
