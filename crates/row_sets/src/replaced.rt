// The cache blocks that the end rows of a task replace.
ghost use Rattle.std.specs.Prelude.{◌≡◌, List, [], ℕ, ◌*◌, ◌≤◌, length, take, drop};
ghost use Rattle.cache.specs.Sets.{bits};
ghost use Rattle.rows.specs.Overlay.{overlay};
ghost use Rattle.rows.specs.Rows.{Width, rows_of};
ghost use Rattle.row_sets.specs.Sets.{replaced_sets, some_replaces, OneOfThem, Joined};

use cache::row::Row;
use cache::sets::replaced;

// The sets of the cache blocks of a reaching row that each of the first `count` end rows, as wide as it, replaces, at the end row's number; answers
// their union. The places after them keep theirs.
pub fn replaced_sets(row: &[u16], ends: &[u16], count: usize, sets: &mut [u32]) -> u32
    requires { (count ≤ 32) × Width (length row.now) × (length ends.now ≡ 32 * length row.now) × (length sets.old ≡ 32) }
    ensures { (length sets.new ≡ 32)
        × (take count sets.new ≡ replaced_sets row.now (rows_of (length row.now) count ends.now))
        × (drop count sets.new ≡ drop count sets.old)
        × (result ≡ bits (length row.now) (some_replaces (rows_of (length row.now) count ends.now) row.now)) }
{
    let w = row.len();
    let mut all: u32 = 0;
    // By index: the end row numbered k has the set numbered k.
    for k in 0..count {
        let at = w * k;
        let set = replaced(&ends[at..at + w], row);
        all |= set;
        sets[k] = set;
    }
    all
}

// What some end rows replace in a reaching row, from the one row for all of them (`Joined`): at a cache block where they hold more than one memory
// block one of them replaces whatever is there; elsewhere they hold what the one row holds. The answer is told for each list of end rows that the row and
// `mixed` are made from.
pub fn replaced_by_some(row: &[u16], one: &[u16], mixed: u32) -> u32
    requires { Width (length row.now) × (length one.now ≡ length row.now) }
    ensures { (fs : List (List ℕ)) → Joined (length row.now) fs one.now mixed
        → result ≡ bits (length row.now) (some_replaces fs row.now) }
{
    mixed | replaced(one, row)
}

// The row gets what `over` holds at each place where that is not nothing.
fn overlay_onto(over: &[u16], row: &mut [u16])
    requires { length over.now ≡ length row.old }
    ensures { row.new ≡ overlay row.old over.now }
{
    // By index: both rows are at the same place. `rows::overlay_row` writes to another row, for which this one would be copied.
    for c in 0..over.len() {
        let m = over[c];
        let kept = row[c];
        row[c] = if m == Row::NOTHING { kept } else { m };
    }
}

// The row of nothings becomes the one row for the first `count` end rows, w numbers each, which are laid over each other; answers the cache blocks where
// they hold more than one memory block. Which of several memory blocks the row holds there is left open.
pub fn join_rows(ends: &[u16], count: usize, w: usize, one: &mut [u16]) -> u32
    requires { (count ≤ 32) × Width w × (length ends.now ≡ 32 * w) × OneOfThem w [] one.old }
    ensures { Joined w (rows_of w count ends.now) one.new result }
{
    // By index: w may be 0, and there are no chunks of no number.
    for k in 0..count {
        let at = w * k;
        overlay_onto(&ends[at..at + w], one);
    }
    let mut sets = [0u32; 32];
    replaced_sets(one, ends, count, &mut sets)
}
