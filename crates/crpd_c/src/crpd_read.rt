// Reader for C.
ghost use Rattle.std.specs.Prelude.{◌≡◌};
ghost use Rattle.crpd_c.specs.Read.{read_status, read_left};

use c_answers::reading::tell_reading;
use reader::read;

// Reader: 0, or the check that fails first; `answer` gets the task that it names (255 if none), n and t (0 and 0 after a refusal).
// An `answer` that has not three places gives 1 and is left as it was.
#[unsafe(no_mangle)]
pub extern "C" fn crpd_read(file: &[u8], answer: &mut [u8]) -> u8
    ensures { (result ≡ read_status file.now answer.old)
        × (answer.new ≡ read_left file.now answer.old) }
{
    tell_reading(answer, read(file))
}
