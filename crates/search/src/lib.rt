// The search for the point and the rows that make a pair number, among gathered rows.
#![tactic(auto)]

mod at_point;
mod before;
mod block;

ghost use Rattle.std.specs.Prelude.{◌≡◌, true};
ghost use Rattle.cache.specs.Shape.{shaped, Holds};
ghost use Rattle.body.specs.Decode.{decode, task_of};
ghost use Rattle.body.specs.Walk.{kept_of};
ghost use Rattle.block_rows.specs.BlockRows.{rows_by, listed};
ghost use Rattle.search.specs.Search.{Searched};

use block::over_block;
use block_rows::block::Block;
use block_rows::held::Held;
use block_rows::row_list::RowList;
use body::jumps::jumps;
use body::masks::unmasked_blocks;
use body::predecessors::predecessors;
use body::{kept_walk, references};
use cache::blocks::CacheShape;

// A point of a block, where `done` of its references are done, and the row before the block: it is the first of a path, or comes after the block
// `before`, with the reaching row of that numbered `reaching`. No Option for the row before: `Comes`, on which the theorem `makes_number` stands, says that
// `before` and `reaching` are 0 at a first block.
#[derive(Clone, Copy)]
pub struct Point {
    pub block: usize,
    pub first: bool,
    pub before: usize,
    pub reaching: usize,
    pub done: usize,
}

// A point, the numbers of a live row of its block and of an end row of another task, and one more than the cache blocks that are useful at the point and
// replaced by the end row; a cost of 0 tells that nothing is found. No Option of this: where nothing is found, `makes_number` still says that its point and
// rows are there, and `costliest::write_run` writes the run through them.
#[derive(Clone, Copy)]
pub struct Found {
    pub point: Point,
    pub live: usize,
    pub ending: usize,
    pub cost: u32,
}

// What the search begins with: nothing, of no cost.
const NONE_FOUND: Found = Found {
    point: Point {
        block: 0,
        first: true,
        before: 0,
        reaching: 0,
        done: 0,
    },
    live: 0,
    ending: 0,
    cost: 0,
};

// Live rows of a block, or of a point in it, and the rows of another task's end block. The live rows of a point are made on the way, so that the two have
// lifetimes of their own.
#[derive(Clone, Copy)]
pub struct PointRows<'a, 'b> {
    pub live: RowList<'a>,
    pub ends: RowList<'b>,
    ghost same: { live.w ≡ ends.w },
}

// The point of an unmasked block of a body, the rows there and the end row of another task that cost most; nothing where all blocks are masked. Given are
// the reaching and the live rows of each block, and the rows that the other task ends with.
pub fn search(body: &[u8], shape: CacheShape, reaching: &Held, live: &Held, ends: &RowList) -> Found
    requires { (kept_of (decode body.now) ≡ true) × Holds ends.now.w shape × (reaching.now.w ≡ ends.now.w) × (live.now.w ≡ ends.now.w) }
    ensures { Searched (shaped ends.now.w shape) (task_of (decode body.now)) (rows_by reaching.now) (rows_by live.now) (listed ends.now) result }
{
    let walked = kept_walk(body);
    let starts = walked.starts;
    let blocks = walked.blocks;
    let before = predecessors(jumps(&walked), blocks);
    let unmasked = unmasked_blocks(body);
    let mut found = NONE_FOUND;
    // By number: the number is the bit that is asked, and part of the point.
    for b in 0..blocks {
        if unmasked & (1 << b) != 0 {
            let block = Block {
                number: b,
                blocks,
                before: before[b],
                references: references(body, starts[b]),
                shape,
                w: ends.w,
            };
            let rows = PointRows {
                live: live.of_block(b),
                ends: *ends,
            };
            found = over_block(found, &block, reaching, &rows);
        }
    }
    found
}
