// The live rows at a point: those of the block, overlaid by the first references of what is left of it.
ghost use Rattle.std.specs.Prelude.{◌≡◌, ◌*◌, ◌/◌, ◌≤◌, length};
ghost use Rattle.cache.specs.References.{numbers};
ghost use Rattle.cache.specs.Cache.{empty_row};
ghost use Rattle.cache.specs.Shape.{shaped, Holds};
ghost use Rattle.rows.specs.Rows.{Width, rows_of};
ghost use Rattle.rows.specs.Append.{put};
ghost use Rattle.points.specs.Points.{rest_of, Rests, left_rows};

use crate::done::refer_row;
use cache::blocks::CacheShape;
use cache::row::Row;
use rows::{copy_row, overlay_row};

// The row becomes the one numbered d.
fn keep_rest(row: &[u16], d: usize, rests: &mut [u16])
    requires { Width (length row.now) × (d ≤ 16) × (length rests.old ≡ 17 * length row.now) }
    ensures { rests.new ≡ put rests.old (length row.now * d) row.now }
{
    let w = row.len();
    let at = w * d;
    copy_row(row, &mut rests[at..at + w]);
}

// The rest rows of references, in a room for one row, which holds nothing at first. They are made from the last reference to the first: the one that is
// then left too comes first. In the end the room is the row of all of them.
fn rests_in(references: &[u8], shape: CacheShape, rest: &mut [u16], rests: &mut [u16])
    requires { (length references.now / 2 ≤ 16) × Holds (length rest.old) shape × Width (length rest.old)
        × (rest.old ≡ empty_row (shaped (length rest.old) shape)) × (length rests.old ≡ 17 * length rest.old) }
    ensures { (rest.new ≡ rest_of (shaped (length rest.old) shape) (numbers references.now) 0)
        × Rests (shaped (length rest.old) shape) (numbers references.now) rests.new }
{
    let all = references.len() / 2;
    keep_rest(rest, all, rests);
    for d in (0..all).rev() {
        refer_row(references, d, shape, rest);
        keep_rest(rest, d, rests);
    }
}

// For each d up to the number of references the row numbered d, of w numbers, becomes that of the first references of what is left after d of them.
// The rows after these are left open.
pub fn rests(references: &[u8], shape: CacheShape, w: usize, rests: &mut [u16])
    requires { (length references.now / 2 ≤ 16) × Holds w shape × Width w × (length rests.old ≡ 17 * w) }
    ensures { Rests (shaped w shape) (numbers references.now) rests.new }
{
    let mut rest = [Row::NOTHING; 32];
    rests_in(references, shape, &mut rest[0..w], rests);
}

// The first `lived` rows of `out` become the live rows, overlaid by the rest. What stands after them is left open.
pub fn left_rows(rest: &[u16], live: &[u16], lived: usize, out: &mut [u16])
    requires { Width (length rest.now) × (lived ≤ 32) × (length live.now ≡ 32 * length rest.now) × (length out.old ≡ 32 * length rest.now) }
    ensures { (length out.new ≡ 32 * length rest.now)
        × (rows_of (length rest.now) lived out.new
        ≡ left_rows rest.now (rows_of (length rest.now) lived live.now)) }
{
    let w = rest.len();
    // By index: a live row and the row made of it have the same number.
    for k in 0..lived {
        let at = w * k;
        overlay_row(&live[at..at + w], rest, &mut out[at..at + w]);
    }
}
