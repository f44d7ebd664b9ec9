// What the references of a block do to a row, made once for each block of a body.
ghost use Rattle.std.specs.Prelude.{◌≡◌, ◌*◌, ◌<◌, length, take};
ghost use Rattle.cache.specs.Shape.{shaped, Holds};
ghost use Rattle.body.specs.Decode.{decode, task_of};
ghost use Rattle.rows.specs.Rows.{Width};
ghost use Rattle.rows.specs.Append.{put};
ghost use Rattle.graphs.specs.Graphs.{first_rows, last_rows, no_rows};

use body::{BodyWalk, references};
use cache::blocks::CacheShape;
use cache::references::BlockReferences;
use rows::copy_row;

// The first w of the cells become the row of block b.
fn keep_row(cells: [u16; 32], w: usize, b: usize, rows: &mut [u16])
    requires { Width w × (b < 24) × (length rows.old ≡ 24 * w) }
    ensures { rows.new ≡ put rows.old (w * b) (take w cells) }
{
    let at = w * b;
    copy_row(&cells[0..w], &mut rows[at..at + w]);
}

// The first and the last references of each block of a body.
pub fn prepare(
    walk: &BodyWalk<'_>,
    shape: CacheShape,
    w: usize,
    first: &mut [u16],
    last: &mut [u16],
)
    requires { Holds w shape × Width w × (first.old ≡ no_rows w) × (last.old ≡ no_rows w) }
    ensures { (first.new ≡ first_rows (shaped w shape) (task_of (decode walk.now.body.now)))
        × (last.new ≡ last_rows (shaped w shape) (task_of (decode walk.now.body.now))) }
{
    // By index: the number of a block is that of its row in both lists.
    for b in 0..walk.blocks {
        let rows = BlockReferences::gather(references(walk.body, walk.starts[b]), shape);
        keep_row(rows.first.cells(), w, b, first);
        keep_row(rows.last.cells(), w, b, last);
    }
}
