// The numbers of a task at one point: for each task the most cache blocks that are useful in the one and replaced by the other.
ghost use Rattle.std.specs.Prelude.{◌≡◌, List, ℕ, ◌*◌, ◌≤◌, max, length};
ghost use Rattle.std.specs.Int.Bits.{bit_and};
ghost use Rattle.std.specs.Int.Count.{ones};
ghost use Rattle.cache.specs.Sets.{bits};
ghost use Rattle.rows.specs.Rows.{Width, rows_of};
ghost use Rattle.row_sets.specs.Sets.{some_replaces, Joined};
ghost use Rattle.pairs.specs.Pairs.{most_common, sets_most, largest_of, NoMoreThanAll, UsefulSets, useful_most, point_most, live_rows, may_raise, may_raise_some, Met};

use crate::ends::Ends;
use crate::lives::Lives;
use cache::sets::common;
use row_sets::replaced::{replaced_by_some, replaced_sets};
use row_sets::useful::{kept, useful_sets};

// The most cache blocks that the set has in common with one of the sets.
pub fn most_common(set: u32, sets: &[u32]) -> u32
    ensures { result ≡ most_common set sets.now }
{
    let mut most: u32 = 0;
    for other in sets {
        most = most.max(common(set, *other));
    }
    most
}

// How many cache blocks the largest of the sets has. It is no one function with `most_common`: their loops are one line, and a closure would be as long.
fn largest(sets: &[u32]) -> u32
    ensures { result ≡ largest_of sets.now }
{
    let mut most: u32 = 0;
    for set in sets {
        most = most.max(set.count_ones());
    }
    most
}

// The number, raised to the most that the set has in common with one of the sets. It has no more in common with one of them than with `all`, so that it
// is not met by each of them where this is no more than `number`.
fn raised(number: u16, set: u32, sets: &[u32], all: u32) -> u16
    requires { most_common set sets.now ≤ ones (bit_and set all) }
    ensures { result ≡ max number (most_common set sets.now) }
{
    if common(set, all) <= number as u32 {
        return number;
    }
    let most = most_common(set, sets) as u16;
    number.max(most)
}

// The number, raised to the most that one of the useful sets has in common with one of the sets.
fn raised_by_sets(number: u16, useful: &[u32], sets: &[u32], all: u32) -> u16
    requires { NoMoreThanAll useful.now sets.now all }
    ensures { result ≡ max number (sets_most useful.now sets.now) }
{
    let mut most = number;
    for set in useful {
        most = raised(most, *set, sets, all);
    }
    most
}

// A reaching row at a point: its cache blocks that can be useful, its useful sets, and how many cache blocks the largest of these has.
#[derive(Clone, Copy)]
struct Useful<'a> {
    row: &'a [u16],
    held: u32,
    sets: &'a [u32],
    most: u32,
    ghost largest: { most ≡ largest_of sets.now },
}

// The number, raised to the most for a reaching row and the first `count` end rows of one task; `all` are the cache blocks where one of the end rows
// replaces what the row holds. The end rows are not looked at where these tell that the number stays.
fn raised_by_row(number: u16, useful: &Useful, ends: &[u16], count: usize, all: u32) -> u16
    requires { UsefulSets useful.now.row.now useful.now.held useful.now.sets.now × Width (length useful.now.row.now) × (length ends.now ≡ 32 * length useful.now.row.now) × (count ≤ 32)
        × (all ≡ bits (length useful.now.row.now) (some_replaces (rows_of (length useful.now.row.now) count ends.now) useful.now.row.now)) }
    ensures { result ≡ max number (useful_most useful.now.row.now useful.now.sets.now (rows_of (length useful.now.row.now) count ends.now)) }
{
    if useful.most <= number as u32 {
        return number;
    }
    if common(useful.held, all) <= number as u32 {
        return number;
    }
    if most_common(all, useful.sets) <= number as u32 {
        return number;
    }
    let mut sets = [0u32; 32];
    replaced_sets(useful.row, ends, count, &mut sets);
    raised_by_sets(number, useful.sets, &sets[0..count], all)
}

// A reaching row, by its useful sets, is met by the end rows of each task.
fn meet_sets(useful: &Useful, ends: &Ends, numbers: &mut [u16])
    requires { UsefulSets useful.now.row.now useful.now.held useful.now.sets.now × (length useful.now.row.now ≡ ends.now.w) × (length numbers.old ≡ 8) }
    ensures { Met (useful_most useful.now.row.now useful.now.sets.now) ends.now ends.now.tasks numbers.old numbers.new }
{
    // By index: four lists are read at the same place.
    for j in 0..ends.tasks {
        let all = replaced_by_some(useful.row, ends.one_of(j), ends.mixed[j]);
        numbers[j] = raised_by_row(numbers[j], useful, ends.room_of(j), ends.counts[j], all);
    }
}

// Whether a reaching row may raise the number, for the end rows of a task with this one row and these mixed cache blocks: else it has no more cache blocks
// than the number among those where the end rows replace what it holds. `held` are those of its cache blocks that can be useful; where these are no more
// than the number, the end rows are not asked.
fn may_raise(row: &[u16], held: u32, one: &[u16], mixed: u32, number: u16) -> bool
    requires { Width (length row.now) × (length one.now ≡ length row.now) }
    ensures { (fs : List (List ℕ)) → Joined (length row.now) fs one.now mixed
        → result ≡ may_raise row.now held number fs }
{
    if u32::count_ones(held) <= number as u32 {
        return false;
    }
    (number as u32) < common(held, replaced_by_some(row, one, mixed))
}

// Whether a reaching row may raise one of the numbers.
fn may_raise_some(row: &[u16], held: u32, ends: &Ends, numbers: &[u16]) -> bool
    requires { (length row.now ≡ ends.now.w) × (length numbers.now ≡ 8) }
    ensures { result ≡ may_raise_some row.now held ends.now numbers.now ends.now.tasks }
{
    // By index: three lists are read at the same place.
    for j in 0..ends.tasks {
        if may_raise(row, held, ends.one_of(j), ends.mixed[j], numbers[j]) {
            return true;
        }
    }
    false
}

// A reaching row and the live rows of the block, overlaid by the rest, are met by the end rows of each task. The useful sets are made once for all tasks,
// and only where a number may be raised.
pub fn meet_point(row: &[u16], rest: &[u16], lives: &Lives, ends: &Ends, numbers: &mut [u16])
    requires { (length row.now ≡ ends.now.w) × (length rest.now ≡ ends.now.w) × (lives.now.w ≡ ends.now.w) × (length numbers.old ≡ 8) }
    ensures { Met (point_most row.now rest.now (live_rows lives.now)) ends.now ends.now.tasks numbers.old numbers.new }
{
    let held = kept(row, rest);
    if may_raise_some(row, held, ends, numbers) {
        let mut sets = [0u32; 32];
        useful_sets(row, rest, lives.lanes, lives.count, &mut sets);
        let sets = &sets[0..lives.count];
        let useful = Useful {
            row,
            held,
            sets,
            most: largest(sets),
        };
        meet_sets(&useful, ends, numbers);
    }
}
