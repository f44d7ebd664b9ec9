// The search among the rows at one point.
ghost use Rattle.std.specs.Prelude.{◌≡◌, length};
ghost use Rattle.rows.specs.Rows.{rows_of};
ghost use Rattle.block_rows.specs.BlockRows.{listed};
ghost use Rattle.search.specs.Search.{Raised, OfSet, OfLive, OfRow};

use crate::{Found, Point, PointRows};
use block_rows::row_list::RowList;
use cache::sets::{common, useful};
use row_sets::replaced::replaced_sets;

// `old`, or the rows of a useful set at the point and the end row whose replaced set has most in common with it, if that costs more. A set of fewer
// cache blocks than `old.cost` cannot cost more. Which is answered of several that cost most is left open, here and below.
fn over_ends(old: Found, point: Point, live: usize, set: u32, sets: &[u32]) -> Found
    ensures { Raised (OfSet point live set sets.now) old result }
{
    let mut found = old;
    if u32::count_ones(set) < old.cost {
        return found;
    }
    // By index: the number of the end row is part of what is found.
    for e in 0..sets.len() {
        let cost = common(set, sets[e]) + 1;
        if found.cost < cost {
            found = Found {
                point,
                live,
                ending: e,
                cost,
            };
        }
    }
    found
}

// The same for the row of the point with each live row; `sets` are the sets that the end rows replace in it.
fn over_live(old: Found, point: Point, row: &[u16], live: &RowList, sets: &[u32]) -> Found
    requires { length row.now ≡ live.now.w }
    ensures { Raised (OfLive point row.now (listed live.now) sets.now) old result }
{
    let mut found = old;
    // By number: the live row's is part of what is found.
    for l in 0..live.count {
        let set = useful(row, live.row(l));
        found = over_ends(found, point, l, set, sets);
    }
    found
}

// The same with each of the end rows.
pub fn over_row(old: Found, point: Point, row: &[u16], rows: &PointRows) -> Found
    requires { length row.now ≡ rows.now.live.w }
    ensures { Raised (OfRow point row.now (listed rows.now.live) (listed rows.now.ends)) old result }
{
    let mut sets = [0u32; 32];
    replaced_sets(row, rows.ends.rows, rows.ends.count, &mut sets);
    over_live(old, point, row, &rows.live, &sets[0..rows.ends.count])
}
