// Body for C.
ghost use Rattle.std.specs.Prelude.{◌≡◌};
ghost use Rattle.c_answers.specs.Place.{place_status};
ghost use Rattle.crpd_c.specs.Body.{body_left};

use c_answers::place::tell_place;
use reader::place;

// Body: 0, and `found` gets the body's offset in the file and its length, 0 and 0 where there is none.
// A `found` that has not two places gives 1 and is left as it was.
#[unsafe(no_mangle)]
pub extern "C" fn crpd_body(file: &[u8], task: usize, found: &mut [usize]) -> u8
    ensures { (result ≡ place_status found.old)
        × (found.new ≡ body_left file.now task found.old) }
{
    let body = place(file, task);
    tell_place(found, body.start, body.length)
}
