// The lines that are printed, put from a place on.
ghost use Rattle.std.specs.Prelude.{◌≡◌, ◌+◌, ◌≤◌, ◌<◌, length};
ghost use Rattle.text.specs.Text.{Placed, labelled, two_labelled, pair_line, pair_text, row_text};

use crate::numeral::{put_bytes, put_number};

// Byte 0A, with which every line ends.
const LINE_END: [u8; 1] = *b"\n";

// A word and a number are put from at on; answers where they end.
fn put_labelled(out: &mut [u8], at: usize, word: &[u8], x: u16) -> usize
    requires { at + length (labelled word.now x) ≤ length out.old }
    ensures { Placed out.old at (labelled word.now x) out.new result }
{
    let next = put_bytes(out, at, word);
    put_number(out, next, x)
}

// A line of two words, each with its number, is put to the front of out; answers where it ends.
pub fn put_two(out: &mut [u8], first: &[u8], x: u16, second: &[u8], y: u16) -> usize
    requires { length (two_labelled first.now x second.now y) ≤ length out.old }
    ensures { Placed out.old 0 (two_labelled first.now x second.now y) out.new result }
{
    let next = put_labelled(out, 0, first, x);
    let end = put_labelled(out, next, second, y);
    put_bytes(out, end, &LINE_END)
}

// The line of task i preempted by task j is put from at on; answers where it ends.
fn put_pair(out: &mut [u8], at: usize, i: u16, j: u16, x: u16) -> usize
    requires { at + length (pair_line i j x) ≤ length out.old }
    ensures { Placed out.old at (pair_line i j x) out.new result }
{
    let by = put_number(out, at, i);
    let next = put_labelled(out, by, b" by ", j);
    let end = put_labelled(out, next, b": ", x);
    put_bytes(out, end, &LINE_END)
}

// The line of task i preempted by task j is put from at on, unless they are the same; answers where it ends.
fn put_entry(out: &mut [u8], at: usize, i: u16, j: u16, numbers: &[u16]) -> usize
    requires { (at + length (pair_text numbers.now i j) ≤ length out.old) × (i < 8) × (j < 8) × (length numbers.now ≡ 64) }
    ensures { Placed out.old at (pair_text numbers.now i j) out.new result }
{
    if i == j {
        return at;
    }
    let k = (8 * i + j) as usize;
    put_pair(out, at, i, j, numbers[k])
}

// The lines of task i preempted by each of t tasks are put from at on; answers where they end.
pub fn put_row(out: &mut [u8], at: usize, i: u16, t: u16, numbers: &[u16]) -> usize
    requires { (at + length (row_text numbers.now i t 0) ≤ length out.old) × (i < 8) × (t ≤ 8) × (length numbers.now ≡ 64) }
    ensures { Placed out.old at (row_text numbers.now i t 0) out.new result }
{
    let mut next = at;
    // By number: the number is printed.
    for j in 0..t {
        next = put_entry(out, next, i, j, numbers);
    }
    next
}
