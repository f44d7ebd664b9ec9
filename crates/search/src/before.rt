// The search over the rows before the block of a point.
ghost use Rattle.std.specs.Prelude.{◌≡◌, ◌/◌, ◌≤◌, length, take};
ghost use Rattle.cache.specs.References.{numbers};
ghost use Rattle.cache.specs.Cache.{with_references};
ghost use Rattle.cache.specs.Shape.{shaped, Holds};
ghost use Rattle.block_rows.specs.BlockRows.{cache_of, references_of, rows_by, listed};
ghost use Rattle.search.specs.Search.{Raised, OfDone, OfReaching, OfPredecessors, OfBefore};

use crate::at_point::over_row;
use crate::{Found, Point, PointRows};
use block_rows::block::Block;
use block_rows::held::Held;
use block_rows::row_list::RowList;
use cache::blocks::CacheShape;
use cache::row::Row;
use points::done::refer_row;
use rows::copy_row;

// The row after the first d references of a list of bytes, two for each.
fn refer_first(references: &[u8], d: usize, shape: CacheShape, row: &mut [u16])
    requires { (d ≤ length references.now / 2) × Holds (length row.old) shape }
    ensures { row.new ≡ with_references (shaped (length row.old) shape) row.old (take d (numbers references.now)) }
{
    // By number: each reference is two bytes.
    for i in 0..d {
        refer_row(references, i, shape, row);
    }
}

// `old`, or the point with the live row and the end row that cost most, if they cost more. `row` is the row before the block of the point; `rows` are the
// rows at the point and those of the other task's end block.
fn over_done(old: Found, point: Point, block: &Block, row: &[u16], rows: &PointRows) -> Found
    requires { (point.done ≤ length block.now.references.now / 2) × (length row.now ≡ block.now.w) × (rows.now.live.w ≡ block.now.w) }
    ensures { Raised (OfDone (cache_of block.now) (references_of block.now) point row.now (listed rows.now.live) (listed rows.now.ends)) old result }
{
    let w = block.w;
    let mut done = [0u16; 32];
    copy_row(row, &mut done[0..w]);
    refer_first(block.references, point.done, block.shape, &mut done[0..w]);
    over_row(old, point, &done[0..w], rows)
}

// The same for the points of the block after the block `before`, with each of its reaching rows, where `done` references are done.
fn over_reaching(
    old: Found,
    block: &Block,
    done: usize,
    before: usize,
    reaching: &RowList,
    rows: &PointRows,
) -> Found
    requires { (done ≤ length block.now.references.now / 2) × (reaching.now.w ≡ block.now.w) × (rows.now.live.w ≡ block.now.w) }
    ensures { Raised (OfReaching (cache_of block.now) (references_of block.now) block.now.number done before
        (listed reaching.now) (listed rows.now.live) (listed rows.now.ends)) old result }
{
    let mut found = old;
    // By number: the reaching row's is part of the point.
    for k in 0..reaching.count {
        let point = Point {
            block: block.number,
            first: false,
            before,
            reaching: k,
            done,
        };
        found = over_done(found, point, block, reaching.row(k), rows);
    }
    found
}

// The same after each of the blocks that lead to the block, with the reaching rows of each block of the task.
fn over_predecessors(
    old: Found,
    block: &Block,
    done: usize,
    reaching: &Held,
    rows: &PointRows,
) -> Found
    requires { (done ≤ length block.now.references.now / 2) × (reaching.now.w ≡ block.now.w) × (rows.now.live.w ≡ block.now.w) }
    ensures { Raised (OfPredecessors (cache_of block.now) (references_of block.now) block.now.number done block.now.before block.now.blocks
        (rows_by reaching.now) (listed rows.now.live) (listed rows.now.ends)) old result }
{
    let set = block.before;
    let mut found = old;
    // By number: the number is the bit that is asked, and part of the point.
    for a in 0..block.blocks {
        if set & (1 << a) != 0 {
            found = over_reaching(found, block, done, a, &reaching.of_block(a), rows);
        }
    }
    found
}

// The same with each row before the block: where it is block 0 also the empty one.
pub fn over_before(
    old: Found,
    block: &Block,
    done: usize,
    reaching: &Held,
    rows: &PointRows,
) -> Found
    requires { (done ≤ length block.now.references.now / 2) × (reaching.now.w ≡ block.now.w) × (rows.now.live.w ≡ block.now.w) }
    ensures { Raised (OfBefore (cache_of block.now) (references_of block.now) block.now.number done block.now.before block.now.blocks
        (rows_by reaching.now) (listed rows.now.live) (listed rows.now.ends)) old result }
{
    let mut found = old;
    if block.number == 0 {
        let point = Point {
            block: block.number,
            first: true,
            before: 0,
            reaching: 0,
            done,
        };
        let none = [Row::NOTHING; 32];
        found = over_done(old, point, block, &none[0..block.w], rows);
    }
    over_predecessors(found, block, done, reaching, rows)
}
