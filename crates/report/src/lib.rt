// What crpd prints for a file, as bytes.
#![tactic(auto)]

ghost use Rattle.std.specs.Prelude.{◌≡◌, ◌++◌, ◌≤◌, length, drop};
ghost use Rattle.report.specs.Printed.{checks_of, printed};

use project::answers::Refusal;
use table::table;
use text::{refusal_text, table_text};

// What is reported of a file: what Table answers for it, and the length of the text that is printed.
#[derive(Clone, Copy)]
pub struct Reported {
    pub answer: Result<(), Refusal>,
    pub length: usize,
}

// The text for the file is put to the front of out. What the work area holds afterwards is free.
pub fn report(file: &[u8], area: &mut [u16], out: &mut [u8]) -> Reported
    requires { (length area.old ≡ 24832) × (length out.old ≡ 2048) }
    ensures { (result.answer ≡ checks_of file.now) × (result.length ≡ length (printed file.now)) × (result.length ≤ 2048)
        × (out.new ≡ printed file.now ++ drop (length (printed file.now)) out.old) }
{
    let mut numbers = [0u16; 64];
    let answer = table(file, area, &mut numbers);
    let length = match answer {
        Ok(()) => table_text(file[5], file[6], &numbers, out),
        Err(refusal) => refusal_text(refusal.check.number(), refusal.task, out),
    };
    Reported { answer, length }
}
