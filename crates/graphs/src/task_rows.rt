// The reaching and live states of a body, gathered in memory.
ghost use Rattle.std.specs.Prelude.{◌≡◌, Bool, true, List, ℕ, ◌*◌, ◌≤◌, ◌<◌, length};
ghost use Rattle.std.specs.Result.{is_err};
ghost use Rattle.cache.specs.Shape.{shaped, Holds};
ghost use Rattle.model.specs.Computed.{reaching};
ghost use Rattle.body.specs.Decode.{decode, task_of};
ghost use Rattle.body.specs.Walk.{kept_of};
ghost use Rattle.body.specs.Jumps.{jump_sets};
ghost use Rattle.rows.specs.Rows.{Width, kind_length, area_length};
ghost use Rattle.gather.specs.Gathered.{GatheredAs, GraphInput, graph_meant};
ghost use Rattle.gather.specs.Graph.{Graph};
ghost use Rattle.graphs.specs.Graphs.{first_rows, last_rows, no_rows, reach_graph, live_graph, reach_of, live_of, live_along};
ghost use Rattle.graphs.specs.TaskRows.{KindRows, AreaRows, Both, Sizes, all_sizes};

use crate::prepare::prepare;
use body::jumps::jumps;
use body::kept_walk;
use body::predecessors::predecessors;
use cache::blocks::CacheShape;
use cache::row::Row;
use gather::gather::{BlockGraph, Full, gather};

// No reference of any block, in rows of up to 32 numbers.
pub const NO_ROWS: [u16; 768] = [Row::NOTHING; 768];

// The graph of reaching states: blocks hand on to their successors, and the last references of the block that gets a row are laid over it. `none` has no
// reference of any block.
pub fn reaching_graph<'a>(
    blocks: usize,
    sets: &'a [u32],
    w: usize,
    none: &'a [u16],
    last: &'a [u16],
) -> BlockGraph<'a>
    requires { (w ≤ length last.now) × (none.now ≡ no_rows w) }
    ensures { graph_meant result ≡ reach_of w blocks sets.now last.now }
{
    BlockGraph {
        blocks,
        sets,
        leaving: none,
        entering: last,
        first: 0,
        row: &last[0..w],
    }
}

// The graph of live states: blocks hand on to their predecessors, and the first references of the block that a row leaves are laid over it. `none` has no
// reference of any block.
pub fn live_graph<'a>(
    blocks: usize,
    before: &'a [u32],
    w: usize,
    none: &'a [u16],
    first: &'a [u16],
) -> BlockGraph<'a>
    requires { (0 < blocks) × (none.now ≡ no_rows w) }
    ensures { graph_meant result ≡ live_along w blocks before.now first.now }
{
    BlockGraph {
        blocks,
        sets: before,
        leaving: first,
        entering: none,
        first: blocks - 1,
        row: &none[0..w],
    }
}

// A way to gather rows along a graph of blocks.
pub trait Gathers {
    // What it leaves in memory, and whether it was stopped.
    ghost leaves: { Graph → List ℕ → List ℕ → Bool → Type 0 };

    // The rows of each block and their counts; an error where a block gets more rows than there is room for.
    fn along(graph: BlockGraph, rows: &mut [u16], counts: &mut [usize]) -> Result<(), Full>
        requires { GraphInput graph rows.old counts.old }
        ensures { leaves (graph_meant graph.entry) rows.new counts.new (is_err result) };

    ghost sizes: { Sizes leaves };
}

// All rows are gathered.
pub struct AllRows;

impl Gathers for AllRows {
    ghost leaves = { GatheredAs };

    ghost sizes = { all_sizes };

    // Part of its callers, as `gather` is.
    #[inline(always)]
    fn along(graph: BlockGraph, rows: &mut [u16], counts: &mut [usize]) -> Result<(), Full> {
        gather(graph, rows, counts)
    }
}

// The rows of both kinds in a work area, those of reaching states first; an error where a block gets more rows of either than there is room for. Left open
// is what gathering leaves open, the area from the counts on, and where some block has too many reaching rows the live ones.
fn both_kinds<G: Gathers>(
    blocks: usize,
    sets: [u32; 24],
    w: usize,
    first: &[u16],
    last: &[u16],
    area: &mut [u16],
    reached: &mut [usize],
    lived: &mut [usize],
) -> Result<(), Full>
    requires { Width w × (0 < blocks) × (blocks ≤ 24) × (length first.now ≡ 24 * w) × (length last.now ≡ 24 * w)
        × (length area.old ≡ area_length w) × (length reached.old ≡ 24) × (length lived.old ≡ 24) }
    ensures { Both G.leaves (reach_of w blocks sets last.now) (live_of w blocks sets first.now)
        area.new reached.new lived.new (is_err result) }
{
    let kind = 24 * (32 * w);
    let none = &NO_ROWS[0..24 * w];
    let reaching = reaching_graph(blocks, &sets, w, none, last);
    G::along(reaching, &mut area[0..kind], reached)?;
    let before = predecessors(sets, blocks);
    let live = live_graph(blocks, &before, w, none, first);
    G::along(live, &mut area[kind..kind + kind], lived)
}

// The blocks of a body, and for each the set of its successors.
#[derive(Clone, Copy)]
pub struct Jumps {
    pub blocks: usize,
    pub sets: [u32; 24],
}

// What both graphs of a body are made of: its jumps, and the first and the last references of each block.
pub fn graphs(
    body: &[u8],
    shape: CacheShape,
    w: usize,
    first: &mut [u16],
    last: &mut [u16],
) -> Jumps
    requires { (kept_of (decode body.now) ≡ true) × Holds w shape × Width w × (first.old ≡ no_rows w) × (last.old ≡ no_rows w) }
    ensures { (result.blocks ≡ length (task_of (decode body.now))) × (result.sets ≡ jump_sets (task_of (decode body.now)))
        × (first.new ≡ first_rows (shaped w shape) (task_of (decode body.now)))
        × (last.new ≡ last_rows (shaped w shape) (task_of (decode body.now))) }
{
    let walked = kept_walk(body);
    prepare(&walked, shape, w, first, last);
    Jumps {
        blocks: walked.blocks,
        sets: jumps(&walked),
    }
}

// The reaching states of each block of a body; true where some block has more than 32. Left open are the order of a block's rows and what stands
// after them, and after true all rows and counts.
pub fn reaching_rows(
    body: &[u8],
    shape: CacheShape,
    w: usize,
    rows: &mut [u16],
    counts: &mut [usize],
) -> bool
    requires { (kept_of (decode body.now) ≡ true) × Holds w shape × Width w × (length rows.old ≡ kind_length w) × (length counts.old ≡ 24) }
    ensures { KindRows w (reaching (shaped w shape) (task_of (decode body.now))) rows.new counts.new result }
{
    let room = 24 * w;
    let mut first = NO_ROWS;
    let mut last = NO_ROWS;
    let found = graphs(body, shape, w, &mut first[0..room], &mut last[0..room]);
    let none = &NO_ROWS[0..room];
    let graph = reaching_graph(found.blocks, &found.sets, w, none, &last[0..room]);
    gather(graph, rows, counts).is_err()
}

// The rows of both kinds of states of a body, gathered in this way in a work area; an error where a block gets more rows of either than there is room for.
// Left open is what gathering leaves open, the area from the counts on, and where some block has too many reaching rows the live ones.
pub fn task_kinds<G: Gathers>(
    body: &[u8],
    shape: CacheShape,
    w: usize,
    area: &mut [u16],
    reached: &mut [usize],
    lived: &mut [usize],
) -> Result<(), Full>
    requires { (kept_of (decode body.now) ≡ true) × Holds w shape × Width w × (length area.old ≡ area_length w) × (length reached.old ≡ 24) × (length lived.old ≡ 24) }
    ensures { Both G.leaves (reach_graph (shaped w shape) (task_of (decode body.now))) (live_graph (shaped w shape) (task_of (decode body.now)))
        area.new reached.new lived.new (is_err result) }
{
    let room = 24 * w;
    let mut first = NO_ROWS;
    let mut last = NO_ROWS;
    let found = graphs(body, shape, w, &mut first[0..room], &mut last[0..room]);
    both_kinds::<G>(
        found.blocks,
        found.sets,
        w,
        &first[0..room],
        &last[0..room],
        area,
        reached,
        lived,
    )
}

// The reaching and the live states of each block of a body, in a work area; true where some block has more than 32 of either. Left open are the
// order of a block's rows, what stands after them and the area from the counts on, and after true the whole area and all counts.
pub fn task_rows(
    body: &[u8],
    shape: CacheShape,
    w: usize,
    area: &mut [u16],
    reached: &mut [usize],
    lived: &mut [usize],
) -> bool
    requires { (kept_of (decode body.now) ≡ true) × Holds w shape × Width w × (length area.old ≡ area_length w) × (length reached.old ≡ 24) × (length lived.old ≡ 24) }
    ensures { AreaRows (shaped w shape) (task_of (decode body.now)) area.new reached.new lived.new result }
{
    task_kinds::<AllRows>(body, shape, w, area, reached, lived).is_err()
}
