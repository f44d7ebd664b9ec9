// The reaching and live states of a body, with the paths that lead to them and on from them.
#![tactic(auto)]

ghost use Rattle.std.specs.Prelude.{◌≡◌, true, ◌*◌, ◌-◌, ◌≤◌, ◌<◌, length};
ghost use Rattle.cache.specs.Shape.{shaped, Holds};
ghost use Rattle.body.specs.Decode.{decode, task_of};
ghost use Rattle.body.specs.Walk.{kept_of};
ghost use Rattle.rows.specs.Rows.{Width, area_length};
ghost use Rattle.gather.specs.Gathered.{GatherInput};
ghost use Rattle.graphs.specs.Graphs.{no_rows, reach_of, live_of};
ghost use Rattle.trails.specs.Trails.{no_trails, GatheredTrails};
ghost use Rattle.task_trails.specs.TaskTrails.{AreaTrails, BothTrails};

use body::predecessors::predecessors;
use cache::blocks::CacheShape;
use graphs::task_rows::{NO_ROWS, graphs};
use trails::gather_trails::gather_trails;

// The rows that blocks hand on to their successors, as `gather` gathers the `reaching_graph` of graphs, and their trails. Left open is what `gather_trails`
// leaves open.
fn reaching_trails(
    blocks: usize,
    sets: [u32; 24],
    w: usize,
    last: &[u16],
    rows: &mut [u16],
    counts: &mut [usize; 24],
    trails: &mut [u16],
) -> bool
    requires { GatherInput w blocks sets (no_rows w) last.now 0 rows.old counts.old × (trails.old ≡ no_trails) }
    ensures { GatheredTrails (reach_of w blocks sets last.now) rows.new counts.new trails.new result }
{
    let room = 24 * w;
    gather_trails(
        blocks,
        &sets,
        &NO_ROWS[0..room],
        last,
        0,
        &last[0..w],
        rows,
        counts,
        trails,
    )
}

// The rows that blocks hand on to their predecessors, as `gather` gathers the `live_graph` of graphs, and their trails. Left open is what `gather_trails`
// leaves open.
fn live_trails(
    blocks: usize,
    sets: [u32; 24],
    w: usize,
    first: &[u16],
    rows: &mut [u16],
    counts: &mut [usize; 24],
    trails: &mut [u16],
) -> bool
    requires { GatherInput w blocks sets first.now (no_rows w) (blocks - 1) rows.old counts.old × (trails.old ≡ no_trails) }
    ensures { GatheredTrails (live_of w blocks sets first.now) rows.new counts.new trails.new result }
{
    let before = predecessors(sets, blocks);
    let room = 24 * w;
    gather_trails(
        blocks,
        &before,
        first,
        &NO_ROWS[0..room],
        blocks - 1,
        &NO_ROWS[0..w],
        rows,
        counts,
        trails,
    )
}

// The states of a task in a work area: whether some block has more than 32 of a kind, how many rows of each kind a block has, and their trails, `to`
// those of reaching states and `on` those of live ones. No Option of the lists: check 11 asks for the answers of two tasks (`costliest::check_two`) before
// the lists of either are used.
#[derive(Clone, Copy)]
pub struct TaskTrails {
    pub full: bool,
    pub reached: [usize; 24],
    pub lived: [usize; 24],
    pub to: [u16; 1536],
    pub on: [u16; 1536],
}

// The rows of both kinds in a work area, those of reaching states first, and the trails of both.
// Left open is what `gather_trails` leaves open, the area from the counts on, and where some block has more than 32 reaching states the live ones.
fn both_trails(
    blocks: usize,
    sets: [u32; 24],
    w: usize,
    first: &[u16],
    last: &[u16],
    area: &mut [u16],
) -> TaskTrails
    requires { Width w × (0 < blocks) × (blocks ≤ 24) × (length first.now ≡ 24 * w) × (length last.now ≡ 24 * w) × (length area.old ≡ area_length w) }
    ensures { BothTrails (reach_of w blocks sets last.now) (live_of w blocks sets first.now)
        area.new result.reached result.lived result.to result.on result.full }
{
    let kind = 24 * (32 * w);
    let mut reached = [0usize; 24];
    let mut lived = [0usize; 24];
    let mut to = [0u16; 1536];
    let mut on = [0u16; 1536];
    let mut full = reaching_trails(
        blocks,
        sets,
        w,
        last,
        &mut area[0..kind],
        &mut reached,
        &mut to,
    );
    if !full {
        full = live_trails(
            blocks,
            sets,
            w,
            first,
            &mut area[kind..kind + kind],
            &mut lived,
            &mut on,
        );
    }
    TaskTrails {
        full,
        reached,
        lived,
        to,
        on,
    }
}

// The reaching and the live states of each block of a body, in a work area, and the trails of both kinds. Left open are the order of a block's rows, which
// trail a row has of several, what stands after the rows and the area from the counts on, and where some block has more than 32 of either kind the whole
// area, all counts and trails.
pub fn task_trails(body: &[u8], shape: CacheShape, w: usize, area: &mut [u16]) -> TaskTrails
    requires { (kept_of (decode body.now) ≡ true) × Holds w shape × Width w × (length area.old ≡ area_length w) }
    ensures { AreaTrails (shaped w shape) (task_of (decode body.now)) area.new result.reached result.lived
        result.to result.on result.full }
{
    let room = 24 * w;
    let mut first = NO_ROWS;
    let mut last = NO_ROWS;
    let found = graphs(body, shape, w, &mut first[0..room], &mut last[0..room]);
    both_trails(
        found.blocks,
        found.sets,
        w,
        &first[0..room],
        &last[0..room],
        area,
    )
}
