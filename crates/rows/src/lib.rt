// Rows of every width, sixteen numbers at a time, and the rows of one block, one after the other in a part of a list.
#![tactic(auto)]

ghost use Rattle.std.specs.Prelude.{◌≡◌, ◌+◌, ◌*◌, ◌%◌, ◌≤◌, length, take, drop};
ghost use Rattle.model.specs.Lists.{mem};
ghost use Rattle.model.specs.Computed.{same_list};
ghost use Rattle.rows.specs.Overlay.{overlay};
ghost use Rattle.rows.specs.Rows.{rows_of};
ghost use Rattle.rows.specs.Append.{put, appended, part_after};

use cache::row::Row;

// Sixteen numbers, with what `over` holds at each place where that is not nothing.
fn overlay_chunk(row: [u16; 16], over: &[u16]) -> [u16; 16]
    requires { length over.now ≡ 16 }
    ensures { result ≡ overlay row over.now }
{
    // By index: two lists are read at the same place. An array by value, with each number chosen, stays in registers and needs no jump.
    let mut held = row;
    for c in 0..16 {
        let m = over[c];
        let kept = held[c];
        held[c] = if m == Row::NOTHING { kept } else { m };
    }
    held
}

// The N numbers from `at` on.
pub fn chunk_at<const N: usize>(part: &[u16], at: usize) -> [u16; N]
    requires { at + N ≤ length part.now }
    ensures { result ≡ take N (drop at part.now) }
{
    // By index: the compiled code of copy_from_slice tests whether the two overlap, and goes through memory.
    let mut row = [0u16; N];
    for i in 0..N {
        row[i] = part[at + i];
    }
    row
}

// N numbers are stored from `at` on.
pub fn store_chunk<const N: usize>(part: &mut [u16], at: usize, row: [u16; N])
    requires { at + N ≤ length part.old }
    ensures { part.new ≡ put part.old at row.entry }
{
    // By index, as in `chunk_at`.
    for i in 0..N {
        part[at + i] = row[i];
    }
}

// `out` becomes the row, with what `over` holds at each place where that is not nothing.
pub fn overlay_row(row: &[u16], over: &[u16], out: &mut [u16])
    requires { (length row.now % 16 ≡ 0) × (length over.now ≡ length row.now) × (length out.old ≡ length row.now) }
    ensures { out.new ≡ overlay row.now over.now }
{
    // By index: three rows are at the same chunk.
    for h in 0..row.len() / 16 {
        let at = 16 * h;
        let chunk = overlay_chunk(chunk_at(row, at), &over[at..at + 16]);
        store_chunk(out, at, chunk);
    }
}

// `out` becomes the N numbers of the row.
fn copy_wide<const N: usize>(row: &[u16], out: &mut [u16])
    requires { (length row.now ≡ N) × (length out.old ≡ N) }
    ensures { out.new ≡ row.now }
{
    store_chunk(out, 0, chunk_at::<N>(row, 0));
}

// `out` becomes the row. A row of known width stays in registers on its way.
pub fn copy_row(row: &[u16], out: &mut [u16])
    requires { (length row.now % 16 ≡ 0) × (length out.old ≡ length row.now) }
    ensures { out.new ≡ row.now }
{
    match row.len() {
        16 => copy_wide::<16>(row, out),
        32 => copy_wide::<32>(row, out),
        _ => out.copy_from_slice(row),
    }
}

// Whether the N numbers are among the first `count` rows of N numbers.
fn holds<const N: usize>(part: &[u16], count: usize, row: [u16; N]) -> bool
    requires { (count ≤ 32) × (N ≤ 32) × (length part.now ≡ 32 * N) }
    ensures { result ≡ mem same_list row.entry (rows_of N count part.now) }
{
    // By index: a row of N numbers, which may be 0, is read as an array.
    for k in 0..count {
        if row == chunk_at(part, N * k) {
            return true;
        }
    }
    false
}

// Whether the row is among the first `count` rows of the part. A row of known width stays in registers.
pub fn holds_row(part: &[u16], count: usize, row: &[u16]) -> bool
    requires { (count ≤ 32) × (length row.now % 16 ≡ 0) × (length row.now ≤ 32) × (length part.now ≡ 32 * length row.now) }
    ensures { result ≡ mem same_list row.now (rows_of (length row.now) count part.now) }
{
    match row.len() {
        16 => holds(part, count, chunk_at::<16>(row, 0)),
        32 => holds(part, count, chunk_at::<32>(row, 0)),
        // Rows of no number are all the same.
        _ => 0 < count,
    }
}

// What became of a row that was to be one of a block's rows.
#[derive(Clone, Copy)]
pub enum Appended {
    Present,
    Added,
    Full,
}

// The row becomes the part's last, unless it is among the first `count` rows or these are 32.
pub fn append_row(part: &mut [u16], count: usize, row: &[u16]) -> Appended
    requires { (count ≤ 32) × (length row.now % 16 ≡ 0) × (length row.now ≤ 32) × (length part.old ≡ 32 * length row.now) }
    ensures { (result ≡ appended part.old count row.now) × (part.new ≡ part_after result part.old count row.now) }
{
    if holds_row(part, count, row) {
        return Appended::Present;
    }
    if 32 <= count {
        return Appended::Full;
    }
    let w = row.len();
    let at = w * count;
    copy_row(row, &mut part[at..at + w]);
    Appended::Added
}
