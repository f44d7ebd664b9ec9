// The rows that a graph of blocks gathers: each row of each block is handed on once.
ghost use Rattle.std.specs.Prelude.{◌≡◌, [], ◌*◌, ◌<◌, ◌≤◌, length, get_or, replicate};
ghost use Rattle.std.specs.Result.{is_err};
ghost use Rattle.rows.specs.Overlay.{overlay};
ghost use Rattle.gather.specs.Graph.{row_at};
ghost use Rattle.gather.specs.Memory.{Memory, held_rows, AppendedTo, NextIn, HandedOn, WaitingAt};
ghost use Rattle.gather.specs.Gathered.{GraphInput, GatheredAs, graph_meant};

use rows::{Appended, append_row, overlay_row};

// A graph of blocks: a row of a block is handed on to each block in its set, overlaid by the row of `leaving` at the block that it leaves and then by the
// row of `entering` at the block that gets it; it begins with one row at one block.
#[derive(Clone, Copy)]
pub struct BlockGraph<'a> {
    pub blocks: usize,
    pub sets: &'a [u32],
    pub leaving: &'a [u16],
    pub entering: &'a [u16],
    pub first: usize,
    pub row: &'a [u16],
}

// A block gets more rows than there is room for.
#[derive(Clone, Copy, Debug, PartialEq, Eq)]
pub struct Full;

// No block has a row.
pub fn clear(counts: &mut [usize])
    requires { length counts.old ≡ 24 }
    ensures { counts.new ≡ replicate 24 0 }
{
    counts.fill(0);
}

// The row is appended to the rows of block s; true where the block is full. A bool, as in `hand_row`: the crate
// trails calls both. What stands after the rows of a block is left open.
pub fn append_to(s: usize, row: &[u16], rows: &mut [u16], counts: &mut [usize]) -> bool
    requires { (s < 24) × Memory (length row.now) rows.old counts.old }
    ensures { AppendedTo (length row.now) s row.now rows.old counts.old rows.new counts.new result }
{
    let part = 32 * row.len();
    let at = part * s;
    let count = counts[s];
    match append_row(&mut rows[at..at + part], count, row) {
        Appended::Present => false,
        Appended::Full => true,
        Appended::Added => {
            counts[s] = count + 1;
            false
        }
    }
}

// What `left` becomes at block s, overlaid by `over`, is appended there; true where the block is full.
// What stands after the rows of a block is left open.
fn hand_to(s: usize, left: &[u16], over: &[u16], rows: &mut [u16], counts: &mut [usize]) -> bool
    requires { (s < 24) × (length over.now ≡ length left.now) × Memory (length left.now) rows.old counts.old }
    ensures { AppendedTo (length left.now) s (overlay left.now over.now) rows.old counts.old rows.new counts.new result }
{
    let w = left.len();
    let mut room = [0u16; 32];
    overlay_row(left, over, &mut room[0..w]);
    append_to(s, &room[0..w], rows, counts)
}

// The first block of the set from `from` on; where there is none, which number from 32 on is left open.
fn next_in(set: u32, from: usize) -> usize
    requires { from < 32 }
    ensures { NextIn set from result }
{
    from + u32::trailing_zeros(set >> from) as usize
}

// What `left` becomes at each block of the set is appended there; true where one of them is full.
// What stands after the rows of a block is left open.
fn hand_on(
    set: u32,
    left: &[u16],
    blocks: usize,
    entering: &[u16],
    rows: &mut [u16],
    counts: &mut [usize],
) -> bool
    requires { (blocks ≤ 24) × (length entering.now ≡ 24 * length left.now) × Memory (length left.now) rows.old counts.old }
    ensures { HandedOn (length left.now) set left.now blocks entering.now rows.old counts.old rows.new counts.new result }
{
    let w = left.len();
    let mut s = next_in(set, 0);
    while s < blocks {
        let at = w * s;
        if hand_to(s, left, &entering[at..at + w], rows, counts) {
            return true;
        }
        s = next_in(set, s + 1);
    }
    false
}

// The row of w numbers that is numbered k at block b is handed on to the blocks of the set; true where one of them is full.
// What stands after the rows of a block is left open.
pub fn hand_row(
    w: usize,
    b: usize,
    k: usize,
    set: u32,
    blocks: usize,
    leaving: &[u16],
    entering: &[u16],
    rows: &mut [u16],
    counts: &mut [usize],
) -> bool
    requires { (b < 24) × (k < get_or counts.old b 0) × (blocks ≤ 24) × (length leaving.now ≡ 24 * w) × (length entering.now ≡ 24 * w) × Memory w rows.old counts.old }
    ensures { HandedOn w set (overlay (get_or (held_rows w rows.old counts.old b) k []) (row_at w leaving.now b)) blocks
        entering.now rows.old counts.old rows.new counts.new result }
{
    let at = 32 * w * b + w * k;
    let over = w * b;
    let mut left = [0u16; 32];
    overlay_row(&rows[at..at + w], &leaving[over..over + w], &mut left[0..w]);
    hand_on(set, &left[0..w], blocks, entering, rows, counts)
}

// A block that has handed on fewer rows than it has, or 24 where there is none; which one is left open. The last one is asked first.
pub fn next_waiting(counts: &[usize], done: &[usize], last: usize) -> usize
    requires { (length counts.now ≡ 24) × (length done.now ≡ 24) × (last < 24) }
    ensures { WaitingAt counts.now done.now result }
{
    if done[last] < counts[last] {
        return last;
    }
    // By index: both lists are read at the same block, and its number is the answer.
    for b in 0..24 {
        if done[b] < counts[b] {
            return b;
        }
    }
    24
}

// The rows of each block and their counts; an error where some block has more than 32 rows.
// Left open are the order of a block's rows and what stands after them, and after an error all rows and counts.
// It becomes part of its callers, so that the compiled code knows the width of the rows of the graph that they make.
#[inline(always)]
pub fn gather(graph: BlockGraph, rows: &mut [u16], counts: &mut [usize]) -> Result<(), Full>
    requires { GraphInput graph rows.old counts.old }
    ensures { GatheredAs (graph_meant graph.entry) rows.new counts.new (is_err result) }
{
    let w = graph.row.len();
    clear(counts);
    append_to(graph.first, graph.row, rows, counts);
    let mut done = [0usize; 24];
    let mut b = graph.first;
    while b < 24 {
        let k = done[b];
        if hand_row(
            w,
            b,
            k,
            graph.sets[b],
            graph.blocks,
            graph.leaving,
            graph.entering,
            rows,
            counts,
        ) {
            return Err(Full);
        }
        done[b] = k + 1;
        b = next_waiting(counts, &done, b);
    }
    Ok(())
}
