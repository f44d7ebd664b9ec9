// Writer for C.
ghost use Rattle.std.specs.Prelude.{◌≡◌};
ghost use Rattle.crpd_c.specs.Write.{write_status, write_left, write_out};

use c_answers::writing::tell_writing;
use writer::write;

// Writer: 0, or the check that fails first; `answer` gets the task that it names (255 if none) and the length written (0 after a refusal).
// An `answer` that has not two places gives 1, and then every list is left as it was.
#[unsafe(no_mangle)]
pub extern "C" fn crpd_write(
    n: u8,
    bodies: &[u8],
    lengths: &[usize],
    out: &mut [u8],
    answer: &mut [usize],
) -> u8
    ensures { (result ≡ write_status n bodies.now lengths.now out.old answer.old)
        × (out.new ≡ write_out n bodies.now lengths.now out.old answer.old)
        × (answer.new ≡ write_left n bodies.now lengths.now out.old answer.old) }
{
    if answer.len() != 2 {
        return 1;
    }
    tell_writing(answer, write(n, bodies, lengths, out))
}
