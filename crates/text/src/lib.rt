// The text that crpd prints, put into a lent list of bytes.
#![tactic(auto)]

mod lines;
mod numeral;

ghost use Rattle.std.specs.Prelude.{◌≡◌, ◌++◌, ◌≤◌, ◌<◌, length, drop};
ghost use Rattle.text.specs.Text.{refusal_line, table_text};

use cache::numbers::byte_number;
use lines::{put_row, put_two};

// The line of a refusal is put to the front of out; answers its length.
pub fn refusal_text(check: u8, task: u8, out: &mut [u8]) -> usize
    requires { length out.old ≡ 2048 }
    ensures { (result ≡ length (refusal_line check task)) × (result ≤ 2048)
        × (out.new ≡ refusal_line check task ++ drop (length (refusal_line check task)) out.old) }
{
    put_two(
        out,
        b"refused ",
        byte_number(check),
        b" task ",
        byte_number(task),
    )
}

// The text of a table of pair numbers is put to the front of out; answers its length.
pub fn table_text(n: u8, t: u8, numbers: &[u16], out: &mut [u8]) -> usize
    requires { (t ≤ 8) × (length numbers.now ≡ 64) × (length out.old ≡ 2048) }
    ensures { (result ≡ length (table_text n t numbers.now)) × (result ≤ 2048)
        × (out.new ≡ table_text n t numbers.now ++ drop (length (table_text n t numbers.now)) out.old) }
{
    let tasks = byte_number(t);
    let mut next = put_two(out, b"cache ", byte_number(n), b" tasks ", tasks);
    // By number: the number is printed.
    for i in 0..tasks {
        next = put_row(out, next, i, tasks, numbers);
    }
    next
}
