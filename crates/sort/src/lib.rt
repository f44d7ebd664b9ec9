// The rows of a block put in dictionary order, for rows of every width.
#![tactic(auto)]

ghost use Rattle.std.specs.Prelude.{◌≡◌, ◌+◌, ◌*◌, ◌%◌, ◌≤◌, length, take, drop, replicate};
ghost use Rattle.model.specs.Order.{before};
ghost use Rattle.model.specs.Computed.{insert_row, sorted};
ghost use Rattle.rows.specs.Rows.{Width, rows_of, flat};
ghost use Rattle.rows.specs.Append.{put};
ghost use Rattle.sort.specs.Sorting.{inserted_first, block_part};

use cache::row::Row;
use rows::{chunk_at, copy_row, store_chunk};

// Whether a row stands before another in dictionary order.
pub fn stands_before(row: &[u16], other: &[u16]) -> bool
    requires { length other.now ≡ length row.now }
    ensures { result ≡ before row.now other.now }
{
    // Place by place until two numbers differ: the compiled code of `<` compares each place twice.
    for (x, y) in row.iter().zip(other) {
        if x != y {
            return x < y;
        }
    }
    false
}

// The N numbers after the N numbers at `at` are copied over these.
fn move_wide<const N: usize>(rows: &mut [u16], at: usize)
    requires { at + N + N ≤ length rows.old }
    ensures { rows.new ≡ put rows.old at (take N (drop (at + N) rows.old)) }
{
    store_chunk(rows, at, chunk_at::<N>(rows, at + N));
}

// The row after the one at `at` is copied over that one. A row of known width stays in registers on its way.
fn move_row(rows: &mut [u16], at: usize, w: usize)
    requires { (w % 16 ≡ 0) × (at + w + w ≤ length rows.old) }
    ensures { rows.new ≡ put rows.old at (take w (drop (at + w) rows.old)) }
{
    match w {
        16 => move_wide::<16>(rows, at),
        32 => move_wide::<32>(rows, at),
        _ => rows.copy_within(at + w..at + w + w, at),
    }
}

// The row takes the place of the first row and is put in order among the others, which rise; each row that stands before it moves one
// place to the front.
fn insert_row(rows: &mut [u16], others: usize, row: &[u16])
    requires { (length row.now % 16 ≡ 0) × (length rows.old ≡ length row.now * (others + 1))
        × (length (insert_row row.now (rows_of (length row.now) others (drop (length row.now) rows.old))) ≡ others + 1) }
    ensures { rows.new ≡ flat (insert_row row.now (rows_of (length row.now) others (drop (length row.now) rows.old))) }
{
    let w = row.len();
    // By index: a row and the one after it are read and written.
    for k in 0..others {
        let at = w * k;
        let next = at + w;
        if stands_before(row, &rows[next..next + w]) {
            copy_row(row, &mut rows[at..at + w]);
            return;
        }
        move_row(rows, at, w);
    }
    let last = w * others;
    copy_row(row, &mut rows[last..last + w]);
}

// The first row is put in its place among the others, which rise.
fn insert_first(rows: &mut [u16], others: usize, w: usize)
    requires { Width w × (length rows.old ≡ w * (others + 1)) × (length (inserted_first w others rows.old) ≡ others + 1) }
    ensures { rows.new ≡ flat (inserted_first w others rows.old) }
{
    let mut first = [0u16; 32];
    copy_row(&rows[0..w], &mut first[0..w]);
    insert_row(rows, others, &first[0..w]);
}

// Each number becomes `value`.
pub fn fill_with(part: &mut [u16], value: u16)
    ensures { part.new ≡ replicate (length part.old) value }
{
    part.fill(value);
}

// The first `count` rows of w numbers, none of them twice, are put in dictionary order; the others become rows of nothings.
pub fn sort_rows(part: &mut [u16], count: usize, w: usize)
    requires { Width w × (length part.old ≡ 32 * w) × (count ≤ 32) × (length (sorted (rows_of w count part.old)) ≡ count) }
    ensures { part.new ≡ block_part w (sorted (rows_of w count part.old)) }
{
    let end = w * count;
    // By index: the part that is in order grows from the back.
    for others in 0..count {
        let at = w * (count - 1 - others);
        insert_first(&mut part[at..end], others, w);
    }
    part[end..32 * w].fill(Row::NOTHING);
}
