// Where a part stands, for C: a part of a list cannot be returned.
ghost use Rattle.std.specs.Prelude.{◌≡◌};
ghost use Rattle.c_answers.specs.Place.{place_status, place_left};

use crate::put::put;

// Two places: the part's offset and its length. The status is 0.
pub fn tell_place(found: &mut [usize], start: usize, length: usize) -> u8
    ensures { (result ≡ place_status found.old) × (found.new ≡ place_left found.old start length) }
{
    put(found, 0, [start, length])
}
