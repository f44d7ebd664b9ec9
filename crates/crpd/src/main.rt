// Reads a project file, named or on standard input, and prints its pair numbers, or the check that it fails.
#![tactic(auto)]

ghost use Rattle.std.specs.Prelude.{length};
ghost use Rattle.crpd.specs.Input.{Within};

use project::answers::{Check, NO_TASK, Refusal};
use report::report;
use std::env::FillError;
use std::io::{IsTerminal, Read};
use std::rt::{Env, Runtime};
use std::{fs, io};

// Reads until the room is full or the input ends: how many bytes now stand at the front. How many are read is up to the system, so the promise is a
// bound only.
fn read_input(input: &mut impl Read, room: &mut [u8]) -> io::Result<usize>
    ensures { Within result (length room.old) }
{
    let mut done = 0;
    // By `while`: how far the next part goes is up to the system.
    while done < room.len() {
        let n = input.read(&mut room[done..])?;
        if n == 0 {
            return Ok(done);
        }
        done += n;
    }
    Ok(done)
}

// Writes to standard error. Where that fails, there is no place left to tell it.
fn complain(rt: &impl Eprint, text: &str) {
    let _ = rt.eprint(text);
}

// Writes a number to standard error.
fn complain_number(rt: &impl Eprint, x: u8) {
    let _ = rt.eprint(x);
}

// Writes why something failed to standard error: the system's words, without the number that std puts after them.
fn complain_of_error(rt: &(impl Eprint + Alloc), error: &io::Error) {
    match format!(in rt.alloc(); "{error}") {
        Ok(text) => match text.as_str().split_once(" (os error ") {
            Some((words, _)) => complain(rt, words),
            None => complain(rt, text.as_str()),
        },
        Err(_) => {
            let _ = rt.eprint(error);
        }
    }
}

// Writes a line to standard error: what failed, and why.
fn fail(rt: &(impl Eprint + Alloc), what: &str, error: &io::Error) {
    complain(rt, what);
    complain(rt, ": ");
    complain_of_error(rt, error);
    complain(rt, "\n");
}

// Writes when a check of a file fails. The other checks are about lists, sheets and times, and belong to other calls.
fn complain_of_check(rt: &impl Eprint, check: Check) {
    let words = match check {
        Check::FileLength => "the file has under 8 or over 7,544 bytes",
        Check::WrongMark => "the first four bytes are not CRPD",
        Check::WrongEdition => "the edition is not 1",
        Check::CacheBlocks => "the number of cache blocks is outside 1 to 16",
        Check::TaskCount => "the number of tasks is outside 1 to 8, or byte 7 is not 0",
        Check::WrongContents => "an offset or a length in the contents is wrong",
        Check::BrokenLayout => "a body breaks its layout",
        Check::OffPath => "a block is on no complete path",
        Check::TooManyStates => "a block has 33 or more reaching or live states",
        _ => "",
    };
    complain(rt, words);
}

// A refusal in words, on one line: "check 8: a body breaks its layout, in task 0".
fn explain(rt: &impl Eprint, refused: Refusal) {
    complain(rt, "check ");
    complain_number(rt, refused.check.number());
    complain(rt, ": ");
    complain_of_check(rt, refused.check);
    if refused.task != NO_TASK {
        complain(rt, ", in task ");
        complain_number(rt, refused.task);
    }
    complain(rt, "\n");
}

// Prints what is printed for the file; a refusal also in words, on standard error.
fn print_report(rt: &(impl Print + Eprint + Alloc), file: &[u8]) {
    let mut area = [0u16; 24832];
    let mut out = [0u8; 2048];
    let told = report(file, &mut area, &mut out);
    let length = told.length;
    if let Err(error) = rt.write_all(&out[..length]) {
        fail(rt, "standard output", &error);
    }
    if let Err(refused) = told.answer {
        explain(rt, refused);
    }
}

// Prints the report of what can be read, or the reason why it cannot be read, with the input's name.
// One byte more than the longest file has is read, so that a file that is too long is known by its length.
fn print_input(rt: &(impl Print + Eprint + Alloc), input: impl Read + Drop, name: &str) {
    let mut input = input;
    let mut room = [0u8; 7545];
    match read_input(&mut input, &mut room) {
        Err(error) => fail(rt, name, &error),
        Ok(n) => print_report(rt, &room[..n]),
    }
}

// The status is not used: a refusal is told in words.
fn print_usage(to: &impl Print) {
    let _ = to.print(
        "usage: crpd [FILE]\n\
Prints the pair numbers of a project file, or the check that it fails first and the task it names.\n\
Without FILE it reads standard input. A refusal is the line \"refused CHECK task TASK\", told in words on standard error.\n\
The status is 0 always.\n",
    );
}

// Prints the report of the file of that name, or the reason why it cannot be opened or read.
fn print_file(rt: &impl Runtime, path: &str) {
    match fs::open(rt, path) {
        Err(error) => {
            fail(rt, path, &error);
        }
        Ok(file) => {
            print_input(rt, file, path);
        }
    }
}

// Takes the one argument: --help, or the name of a file.
fn take_argument(rt: &impl Runtime) {
    let mut word = [0u8; 4096];
    match rt.arg(1, &mut word) {
        Err(FillError::TooLong) => complain(rt, "argument: File name too long\n"),
        Err(FillError::NotPresent) => complain(rt, "argument: Invalid argument\n"),
        Ok(length) => match str::from_utf8(&word[..length]) {
            Err(_) => complain(rt, "argument: not UTF-8\n"),
            Ok("--help") => print_usage(rt),
            Ok(path) => print_file(rt, path),
        },
    }
}

// Reads standard input. If that is a terminal, whoever started the program is told the usage, and not kept waiting.
fn take_input(rt: &HostRuntime) {
    if rt.stdin().is_terminal() {
        print_usage(&rt.stderr());
    } else {
        print_input(rt, rt.stdin(), "standard input");
    }
}

fn main(rt: HostRuntime) {
    let mut none = [0u8; 0];
    let second = rt.arg(2, &mut none);
    let first = rt.arg(1, &mut none);
    match (second, first) {
        (Err(FillError::NotPresent), Err(FillError::NotPresent)) => take_input(&rt),
        (Err(FillError::NotPresent), _) => take_argument(&rt),
        _ => print_usage(&rt.stderr()),
    }
}
