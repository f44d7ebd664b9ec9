// The search over the points of a block.
ghost use Rattle.std.specs.Prelude.{◌≡◌, ◌/◌, ◌≤◌, length};
ghost use Rattle.points.specs.Points.{rest_of, Rests, left_rows};
ghost use Rattle.block_rows.specs.BlockRows.{cache_of, references_of, rows_by, listed};
ghost use Rattle.search.specs.Search.{Raised, OfBefore, OfBlock, fewest_done};

use crate::before::over_before;
use crate::{Found, PointRows};
use block_rows::block::Block;
use block_rows::held::Held;
use block_rows::row_list::RowList;
use points::left::{left_rows, rests};

// `old`, or a point of the block where `done` references are done, with the rows there that cost most, if they cost more. `rows` are the live rows of the
// block and the end rows, and the row numbered `done` of `rests` holds the first references of what is left of the block.
fn over_point(
    old: Found,
    block: &Block,
    done: usize,
    rests: &[u16],
    reaching: &Held,
    rows: &PointRows,
) -> Found
    requires { (done ≤ length block.now.references.now / 2) × (reaching.now.w ≡ block.now.w) × (rows.now.live.w ≡ block.now.w)
        × Rests (cache_of block.now) (references_of block.now) rests.now }
    ensures { Raised (OfBefore (cache_of block.now) (references_of block.now) block.now.number done block.now.before block.now.blocks
        (rows_by reaching.now) (left_rows (rest_of (cache_of block.now) (references_of block.now) done) (listed rows.now.live))
        (listed rows.now.ends)) old result }
{
    let w = block.w;
    let at = w * done;
    let room = 32 * w;
    let live = rows.live;
    let mut left = [0u16; 1024];
    left_rows(
        &rests[at..at + w],
        live.rows,
        live.count,
        &mut left[0..room],
    );
    let ends = rows.ends;
    let live = RowList {
        w,
        rows: &left[0..room],
        count: live.count,
    };
    let here = PointRows { live, ends };
    over_before(old, block, done, reaching, &here)
}

// The fewest references done at a point of a block that has so many.
fn fewest_done(all: usize) -> usize
    ensures { result ≡ fewest_done all }
{
    if all == 0 {
        return 0;
    }
    1
}

// The same for each point of the block.
pub fn over_block(old: Found, block: &Block, reaching: &Held, rows: &PointRows) -> Found
    requires { (reaching.now.w ≡ block.now.w) × (rows.now.live.w ≡ block.now.w) }
    ensures { Raised (OfBlock (cache_of block.now) (references_of block.now) block.now.number block.now.before block.now.blocks
        (rows_by reaching.now) (listed rows.now.live) (listed rows.now.ends)) old result }
{
    let all = block.references.len() / 2;
    let room = 17 * block.w;
    let mut left = [0u16; 544];
    rests(block.references, block.shape, block.w, &mut left[0..room]);
    let mut found = old;
    // By number: how many references are done is part of the point.
    for d in fewest_done(all)..all + 1 {
        found = over_point(found, block, d, &left[0..room], reaching, rows);
    }
    found
}
