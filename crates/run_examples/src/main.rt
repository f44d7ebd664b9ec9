// Prints the runs that cost most of document 02, Points 3, 5 and 6: for two tasks of a file their pair number, the sheet that is written and its replay;
// and what the call refuses.
#![tactic(auto)]

ghost use Rattle.std.specs.Prelude.{◌≡◌, ◌≤◌, ◌<◌, length};

use area::AREA_LENGTH;
use costliest::costliest_run;
use example_files::{
    APART, E, FIGURE_1_AND_BLOCK, FIGURE_1_AND_FORK, FIVE_ARMS, SHARED_BOTH,
    SIX_FORKS_OF_TASKS_2_AND_3, TWICE, with_byte,
};
use replay::{Counted, replay};
use table::table;

// A failed write is passed over, here and below: what the program prints is compared as a whole.

// The file's name and the two tasks, the preempted one first.
fn print_asked(rt: &impl Print, name: &str, i: usize, j: usize) {
    let _ = print!(rt; "{name}, {i} by {j}: ");
}

// The pair number of i preempted by j, if the table can be filled. What the lists hold afterwards is left open.
fn print_pair_number(
    rt: &impl Print,
    file: &[u8],
    i: usize,
    j: usize,
    area: &mut [u16],
    numbers: &mut [u16],
)
    requires { (i < 8) × (j < 8) × (length numbers.old ≡ 64) }
    ensures { length area.new ≡ length area.old }
{
    let _ = match table(file, area, numbers) {
        Ok(()) => print!(rt; "pair number {}", numbers[8 * i + j]),
        Err(refused) => print!(rt; "Table {refused}"),
    };
}

// U, D and the lost hits of the sheet's run.
fn print_costs(rt: &impl Print, file: &[u8], sheet: &[u16]) {
    let _ = match replay(file, sheet) {
        Ok(
            Counted {
                undisturbed,
                disturbed,
                lost,
            },
        ) => println!(rt; ", U = {undisturbed}, D = {disturbed}, lost hits = {lost}"),
        Err(refused) => println!(rt; ", Replay {refused}"),
    };
}

// The number at a place of the sheet, after its name, if the sheet has that place.
fn print_place(rt: &impl Print, name: &str, sheet: &[u16], at: usize) {
    if let Some(x) = sheet.get(at) {
        let _ = print!(rt; "{name}{x}");
    }
}

// The number of preemptions, the references done at the first and the length of its path, after a path of so many blocks.
fn print_preemption(rt: &impl Print, sheet: &[u16], blocks: u16) {
    let count = 2 + usize::from(blocks);
    print_place(rt, ", preemptions ", sheet, count);
    print_place(rt, ", references done ", sheet, count + 2);
    print_place(rt, ", preempting path length ", sheet, count + 4);
}

// The lengths of the sheet's paths, and its number of preemptions.
fn print_lengths(rt: &impl Print, sheet: &[u16]) {
    if let Some(&blocks) = sheet.get(1) {
        let _ = print!(rt; "  path length {blocks}");
        print_preemption(rt, sheet, blocks);
    }
    let _ = println!(rt; "");
}

// The length of the sheet, and all numbers of a short one.
fn print_sheet(rt: &impl Print, sheet: &[u16]) {
    let _ = print!(rt; "  sheet of {}", sheet.len());
    if sheet.len() <= 32 {
        let _ = print!(rt; ":");
        for x in sheet {
            let _ = print!(rt; " {x}");
        }
    }
    let _ = println!(rt; "");
}

// The run that costs most in i preempted by j. What the lists hold afterwards is left open.
fn print_run(
    rt: &impl Print,
    file: &[u8],
    i: usize,
    j: usize,
    first: &mut [u16],
    second: &mut [u16],
    sheet: &mut [u16],
)
    ensures { (length first.new ≡ length first.old) × (length second.new ≡ length second.old) }
{
    match costliest_run(file, i, j, first, second, sheet) {
        Ok(length) => {
            let written = &sheet[0..length];
            print_costs(rt, file, written);
            print_lengths(rt, written);
            print_sheet(rt, written);
        }
        Err(refused) => {
            let _ = println!(rt; ", {refused}");
        }
    }
}

// The pair number of i preempted by j, and the run that costs most.
fn show(rt: &impl Print, name: &str, file: &[u8], i: usize, j: usize)
    requires { (i < 8) × (j < 8) }
{
    let mut first = [0u16; AREA_LENGTH];
    let mut second = [0u16; AREA_LENGTH];
    let mut numbers = [0u16; 64];
    let mut sheet = [0u16; 2311];
    print_asked(rt, name, i, j);
    print_pair_number(rt, file, i, j, &mut first, &mut numbers);
    print_run(rt, file, i, j, &mut first, &mut second, &mut sheet);
}

// How many of the numbers still are the 7 that they were filled with.
fn print_kept(rt: &impl Print, numbers: &[u16]) {
    let kept = numbers.iter().filter(|x| **x == 7).count();
    let _ = println!(rt; ": {kept} of {} numbers kept", numbers.len());
}

// What the call answers with these areas and this sheet, filled with 7, and how many numbers of the sheet it keeps: all if it refuses, and else those
// after the length. What the lists hold afterwards is left open.
fn print_answer(
    rt: &impl Print,
    file: &[u8],
    i: usize,
    j: usize,
    first: &mut [u16],
    second: &mut [u16],
    sheet: &mut [u16],
)
    ensures { (length first.new ≡ length first.old) × (length second.new ≡ length second.old) }
{
    match costliest_run(file, i, j, first, second, sheet) {
        Ok(length) => {
            let _ = print!(rt; "sheet of {length}; after it");
            print_kept(rt, &sheet[length..]);
        }
        Err(refused) => {
            let _ = print!(rt; "{refused}; sheet");
            print_kept(rt, sheet);
        }
    }
}

// What the call answers with areas and a sheet of so many numbers.
fn show_kept(
    rt: &impl Print,
    name: &str,
    file: &[u8],
    i: usize,
    j: usize,
    first_length: usize,
    second_length: usize,
    sheet_length: usize,
)
    requires { (first_length ≤ 24833) × (second_length ≤ 24833) × (sheet_length ≤ 2400) }
{
    let mut first = [0u16; 24833];
    let mut second = [0u16; 24833];
    let mut sheet = [7u16; 2400];
    print_asked(rt, name, i, j);
    print_answer(
        rt,
        file,
        i,
        j,
        &mut first[0..first_length],
        &mut second[0..second_length],
        &mut sheet[0..sheet_length],
    );
}

// What the call answers with areas of the right length and the shortest sheet that is long enough.
fn show_refused(rt: &impl Print, name: &str, file: &[u8], i: usize, j: usize) {
    show_kept(rt, name, file, i, j, AREA_LENGTH, AREA_LENGTH, 2311);
}

// Runs in E, with its block masked too, and in the graph of figure 1.
fn show_documents(rt: &impl Print) {
    show(rt, "E", &E, 0, 1);
    show(rt, "E", &E, 1, 0);
    show(rt, "E with byte 18 = 01", &with_byte(18, 0x01), 0, 1);
    show(rt, "figure 1 and a block", &FIGURE_1_AND_BLOCK, 0, 1);
    show(rt, "figure 1 and a fork", &FIGURE_1_AND_FORK, 0, 1);
}

// A run that goes round a long loop many times, and one in a file that Table refuses.
fn show_larger(rt: &impl Print) {
    show(rt, "a long loop with five arms", &FIVE_ARMS, 0, 1);
    show(
        rt,
        "six forks of tasks 2 and 3",
        &SIX_FORKS_OF_TASKS_2_AND_3,
        0,
        1,
    );
}

// Runs of tasks that share a memory block: one that loses no hit, and one that loses a hit and has another in place of a miss.
fn show_shared(rt: &impl Print) {
    show(rt, "E with byte 31 = 00", &with_byte(31, 0x00), 0, 1);
    show(rt, "one of two memory blocks shared", &SHARED_BOTH, 0, 1);
}

// A run that loses its hit between two references of one block.
fn show_between(rt: &impl Print) {
    show(rt, "one memory block read twice", &TWICE, 0, 1);
}

// Lists of other lengths.
fn show_lengths(rt: &impl Print) {
    show_kept(rt, "E, first area of 24831", &E, 0, 1, 24831, 24832, 2311);
    show_kept(rt, "E, second area of 24833", &E, 0, 1, 24832, 24833, 2311);
    show_kept(rt, "E, sheet of 2310", &E, 0, 1, 24832, 24832, 2310);
    show_kept(rt, "E, sheet of 2400", &E, 0, 1, 24832, 24832, 2400);
    show_kept(rt, "E, sheet of 2310", &E, 0, 0, 24832, 24832, 2310);
    show_kept(rt, "7 bytes, areas of 0", &E[0..7], 0, 1, 0, 0, 2311);
}

// Tasks that are equal or not below t, a file that is not accepted, and tasks with too many states.
fn show_tasks(rt: &impl Print) {
    let forks = "six forks of tasks 2 and 3";
    show_refused(rt, "E", &E, 1, 1);
    show_refused(rt, "E", &E, 2, 0);
    show_refused(rt, "E", &E, 0, 2);
    show_refused(rt, "two blocks, no successors", &APART, 0, 0);
    show_refused(rt, forks, &SIX_FORKS_OF_TASKS_2_AND_3, 2, 3);
    show_refused(rt, forks, &SIX_FORKS_OF_TASKS_2_AND_3, 3, 2);
    show_refused(rt, forks, &SIX_FORKS_OF_TASKS_2_AND_3, 0, 3);
    show_refused(rt, forks, &SIX_FORKS_OF_TASKS_2_AND_3, 3, 0);
}

fn main(rt: HostRuntime) {
    show_documents(&rt);
    show_larger(&rt);
    show_shared(&rt);
    show_between(&rt);
    show_lengths(&rt);
    show_tasks(&rt);
}
