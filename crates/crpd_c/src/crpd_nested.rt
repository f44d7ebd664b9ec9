// Nested replay for C.
ghost use Rattle.std.specs.Prelude.{◌≡◌};
ghost use Rattle.crpd_c.specs.Nested.{nested_status, nested_left};

use c_answers::nested::tell_nested;
use nested_replay::nested_replay;

// Nested replay: 0, or the check that fails first; `answer` gets the task that it names (255 if none) and the total (0 after a refusal).
// An `answer` that has not two places gives 1 and is left as it was.
#[unsafe(no_mangle)]
pub extern "C" fn crpd_nested(file: &[u8], sheet: &[u16], answer: &mut [u64]) -> u8
    ensures { (result ≡ nested_status file.now sheet.now answer.old)
        × (answer.new ≡ nested_left file.now sheet.now answer.old) }
{
    tell_nested(answer, nested_replay(file, sheet))
}
