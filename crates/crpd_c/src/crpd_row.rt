// Row for C.
ghost use Rattle.std.specs.Prelude.{◌≡◌};
ghost use Rattle.c_answers.specs.Place.{place_status};
ghost use Rattle.crpd_c.specs.Row.{row_left};

use area::row::row_place;
use c_answers::place::tell_place;

// Row: 0, and `found` gets the row's offset in the area and its length, 0 and 0 where there is none.
// Reaching rows are asked for by `live` 0, live rows by any other number.
// A `found` that has not two places gives 1 and is left as it was.
#[unsafe(no_mangle)]
pub extern "C" fn crpd_row(
    area: &[u16],
    live: u8,
    block: usize,
    number: usize,
    found: &mut [usize],
) -> u8
    ensures { (result ≡ place_status found.old)
        × (found.new ≡ row_left area.now live block number found.old) }
{
    let row = row_place(area, live != 0, block, number);
    tell_place(found, row.start, row.length)
}
