// The rows that a graph of blocks gathers, and for each the trail of blocks that it was handed along.
ghost use Rattle.std.specs.Prelude.{◌≡◌, ℕ, ◌+◌, ◌≤◌, ◌<◌, length, get_or};
ghost use Rattle.gather.specs.Gathered.{GatherInput, graph_of};
ghost use Rattle.trails.specs.Trails.{length_at, no_trails, Places, Noted, GatheredTrails};

use gather::gather::{append_to, clear, hand_row, next_waiting};

// The places of 32 rows for each of 24 blocks. In a list of trails the lengths stand after them.
pub const PLACES: usize = 768;

// Where a block has a row more than before, its last row came from the place `from`: it gets this place, and a trail one block longer. What stands at
// places that have no row is left open.
fn note(from: usize, before: [usize; 24], counts: &[usize], trails: &mut [u16])
    requires { (from < 768) × (length counts.now ≡ 24) × Places trails.old × (length_at trails.old from < 65535)
        × ((s : ℕ) → s < 24 → get_or before s 0 ≤ 32) × ((s : ℕ) → s < 24 → get_or counts.now s 0 ≤ 32) }
    ensures { Noted from before counts.now trails.old trails.new }
{
    let named = from as u16;
    let long = trails[PLACES + from] + 1;
    // By number: the number of a block tells the place of its trails.
    for s in 0..24 {
        let k = before[s];
        if k < counts[s] {
            let at = 32 * s + k;
            trails[at] = named;
            trails[PLACES + at] = long;
        }
    }
}

// The rows of each block, their counts and their trails; true where some block has more than 32 rows.
// Left open are which trail a row has of several that lead to it, what stands at places that have no row, and what `gather` leaves open. The first six
// parameters are the graph, lent part by part as `gather::gather::gather` takes it.
pub fn gather_trails(
    blocks: usize,
    sets: &[u32],
    leaving: &[u16],
    entering: &[u16],
    first: usize,
    row: &[u16],
    rows: &mut [u16],
    counts: &mut [usize; 24],
    trails: &mut [u16],
) -> bool
    requires { GatherInput (length row.now) blocks sets.now leaving.now entering.now first rows.old counts.old × (trails.old ≡ no_trails) }
    ensures { GatheredTrails (graph_of (length row.now) blocks sets.now leaving.now entering.now first row.now)
        rows.new counts.new trails.new result }
{
    let w = row.len();
    clear(counts);
    append_to(first, row, rows, counts);
    trails[PLACES + 32 * first] = 1;
    let mut done = [0usize; 24];
    let mut b = first;
    // By `while`: which block comes next is told by the rows that were appended.
    while b < 24 {
        let k = done[b];
        let before = *counts;
        if hand_row(w, b, k, sets[b], blocks, leaving, entering, rows, counts) {
            return true;
        }
        note(32 * b + k, before, counts, trails);
        done[b] = k + 1;
        b = next_waiting(counts, &done, b);
    }
    false
}
