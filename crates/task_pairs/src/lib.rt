// The numbers of one task against all tasks: the points of its unmasked blocks are met by the end rows of each task.
#![tactic(auto)]

ghost use Rattle.std.specs.Prelude.{◌≡◌, true, ◌*◌, ◌/◌, ◌≤◌, ◌<◌, length};
ghost use Rattle.cache.specs.Cache.{with_references};
ghost use Rattle.cache.specs.Shape.{shaped, Holds};
ghost use Rattle.model.specs.Lists.{best};
ghost use Rattle.model.specs.Computed.{up_from};
ghost use Rattle.body.specs.Decode.{decode, task_of};
ghost use Rattle.body.specs.Walk.{kept_of};
ghost use Rattle.points.specs.Points.{rows_in, rows_before};
ghost use Rattle.pairs.specs.Pairs.{live_rows, Met};
ghost use Rattle.block_rows.specs.BlockRows.{cache_of, references_of, rows_by, listed};
ghost use Rattle.task_pairs.specs.TaskPairs.{done_most, before_most, block_most, task_most, PointRows};

use block_rows::block::Block;
use block_rows::held::Held;
use block_rows::row_list::RowList;
use body::jumps::jumps;
use body::masks::unmasked_blocks;
use body::predecessors::predecessors;
use body::{kept_walk, references};
use cache::blocks::CacheShape;
use graphs::task_rows::NO_ROWS;
use pairs::ends::Ends;
use pairs::lives::Lives;
use pairs::numbers::meet_point;
use points::done::{hits_next, refer_row};
use points::left::rests;
use row_sets::lanes::lay_lanes;
use rows::copy_row;

// The points of a block: the rest row numbered d is that of the first references of what is left after d of them, and the live rows are those of the
// block. They are met by the end rows of each task.
#[derive(Clone, Copy)]
struct Points<'a> {
    block: Block<'a>,
    rests: &'a [u16],
    lives: Lives<'a>,
    ends: Ends<'a>,
    ghost are: { PointRows block rests.now lives ends },
}

// The points of a block after each of its references are met, for the row before the block; in the end the row is that after all of them.
// A point before a miss has no more than the one after it, and a point after a hit no more than the one before it: these are passed over. `rising` tells
// that the next reference misses, or that none is done yet, and `top` that the one after it hits, or that there is none.
fn meet_done(row: &mut [u16], points: &Points, numbers: &mut [u16])
    requires { (length row.old ≡ points.now.block.w) × (length numbers.old ≡ 8) }
    ensures { (row.new ≡ with_references (cache_of points.now.block) row.old (references_of points.now.block))
        × Met (λ fs. best (done_most (cache_of points.now.block) (references_of points.now.block) (live_rows points.now.lives) row.old fs)
        (up_from 1 (length points.now.block.references.now / 2)))
        points.now.ends points.now.ends.tasks numbers.old numbers.new }
{
    let references = points.block.references;
    let shape = points.block.shape;
    let w = points.block.w;
    let count = references.len() / 2;
    let mut rising = 0 < count;
    // By number: each reference is two bytes, and has a part of `rests`.
    for i in 0..count {
        refer_row(references, i, shape, row);
        let top = hits_next(references, i + 1, shape, row);
        if rising && top {
            let at = w * (i + 1);
            meet_point(
                row,
                &points.rests[at..at + w],
                &points.lives,
                &points.ends,
                numbers,
            );
        }
        rising = !top;
    }
}

// All points of a block are met, for a row before it: after each reference, or the one point of a block that has none.
fn meet_before(row: &[u16], points: &Points, numbers: &mut [u16])
    requires { (length row.now ≡ points.now.block.w) × (length numbers.old ≡ 8) }
    ensures { Met (before_most (cache_of points.now.block) (references_of points.now.block) (live_rows points.now.lives) row.now)
        points.now.ends points.now.ends.tasks numbers.old numbers.new }
{
    let w = points.block.w;
    if points.block.references.len() < 2 {
        meet_point(
            row,
            &points.rests[0..w],
            &points.lives,
            &points.ends,
            numbers,
        );
        return;
    }
    let mut done = [0u16; 32];
    copy_row(row, &mut done[0..w]);
    meet_done(&mut done[0..w], points, numbers);
}

// The same for each row of a list.
fn meet_rows(list: &RowList, points: &Points, numbers: &mut [u16])
    requires { (list.now.w ≡ points.now.block.w) × (length numbers.old ≡ 8) }
    ensures { Met (block_most (cache_of points.now.block) (references_of points.now.block) (live_rows points.now.lives) (listed list.now))
        points.now.ends points.now.ends.tasks numbers.old numbers.new }
{
    // By number: `row` reads a row where it lies; w may be 0, and there are no chunks of no number.
    for k in 0..list.count {
        meet_before(list.row(k), points, numbers);
    }
}

// The same for the reaching rows of each of the blocks that lead to the block, which are those before it.
fn meet_entering(reaching: &Held, points: &Points, numbers: &mut [u16])
    requires { (reaching.now.w ≡ points.now.block.w) × (length numbers.old ≡ 8) }
    ensures { Met (block_most (cache_of points.now.block) (references_of points.now.block) (live_rows points.now.lives)
        (rows_in points.now.block.before (rows_by reaching.now) points.now.block.blocks 0))
        points.now.ends points.now.ends.tasks numbers.old numbers.new }
{
    let set = points.block.before;
    // By number: the number is the bit that is asked.
    for p in 0..points.block.blocks {
        if set & (1 << p) != 0 {
            meet_rows(&reaching.of_block(p), points, numbers);
        }
    }
}

// The points of the block are met, for each row before it: the empty row before block 0, and the reaching rows of its predecessors. The live rows of the
// block lie side by side.
fn meet_lanes(block: &Block, reaching: &Held, lives: &Lives, ends: &Ends, numbers: &mut [u16])
    requires { (reaching.now.w ≡ block.now.w) × (lives.now.w ≡ block.now.w) × (ends.now.w ≡ block.now.w) × (length numbers.old ≡ 8) }
    ensures { Met (block_most (cache_of block.now) (references_of block.now) (live_rows lives.now)
        (rows_before (cache_of block.now) block.now.blocks block.now.before (rows_by reaching.now) block.now.number))
        ends.now ends.now.tasks numbers.old numbers.new }
{
    let w = block.w;
    let room = 17 * w;
    let mut left = [0u16; 544];
    rests(block.references, block.shape, w, &mut left[0..room]);
    let points = Points {
        block: *block,
        rests: &left[0..room],
        lives: *lives,
        ends: *ends,
    };
    if block.number == 0 {
        meet_before(&NO_ROWS[0..w], &points, numbers);
    }
    meet_entering(reaching, &points, numbers);
}

// The same, for live rows one after the other.
fn meet_block(block: &Block, reaching: &Held, live: &Held, ends: &Ends, numbers: &mut [u16])
    requires { (block.now.number < 24) × (reaching.now.w ≡ block.now.w) × (live.now.w ≡ block.now.w) × (ends.now.w ≡ block.now.w)
        × (length numbers.old ≡ 8) }
    ensures { Met (block_most (cache_of block.now) (references_of block.now) (rows_by live.now block.now.number)
        (rows_before (cache_of block.now) block.now.blocks block.now.before (rows_by reaching.now) block.now.number))
        ends.now ends.now.tasks numbers.old numbers.new }
{
    let list = live.of_block(block.number);
    let all = 32 * list.w;
    let mut lanes = [0u16; 1024];
    lay_lanes(list.rows, list.count, list.w, &mut lanes[0..all]);
    let lives = Lives {
        w: list.w,
        lanes: &lanes[0..all],
        count: list.count,
    };
    meet_lanes(block, reaching, &lives, ends, numbers);
}

// The points of the unmasked blocks of the task of a body are met by the end rows of each task, given the reaching and the live rows of each block.
pub fn meet_task(
    body: &[u8],
    shape: CacheShape,
    reaching: &Held,
    live: &Held,
    ends: &Ends,
    numbers: &mut [u16],
)
    requires { (kept_of (decode body.now) ≡ true) × Holds ends.now.w shape × (reaching.now.w ≡ ends.now.w) × (live.now.w ≡ ends.now.w)
        × (length numbers.old ≡ 8) }
    ensures { Met (task_most (shaped ends.now.w shape) (task_of (decode body.now)) (rows_by reaching.now) (rows_by live.now)
        (length (task_of (decode body.now))) 0)
        ends.now ends.now.tasks numbers.old numbers.new }
{
    let walked = kept_walk(body);
    let blocks = walked.blocks;
    let starts = walked.starts;
    let before = predecessors(jumps(&walked), blocks);
    let unmasked = unmasked_blocks(body);
    // By number: the number is the bit that is asked, and the block has a set and a start.
    for b in 0..blocks {
        if unmasked & (1 << b) != 0 {
            let block = Block {
                number: b,
                blocks,
                before: before[b],
                references: references(body, starts[b]),
                shape,
                w: ends.w,
            };
            meet_block(&block, reaching, live, ends, numbers);
        }
    }
}
