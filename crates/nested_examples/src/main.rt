// Prints what Nested replay answers: totals of runs within runs, and what its checks refuse.
#![tactic(auto)]

use example_files::{APART, AROUND, EIGHT, THREE};
use nested_replay::nested_replay;

// What the call answers. A failed write is passed over: what the program prints is compared as a whole.
fn show(rt: &impl Print, file_name: &str, file: &[u8], name: &str, sheet: &[u16]) {
    let _ = match nested_replay(file, sheet) {
        Ok(total) => println!(rt; "{file_name}, {name}: total {total}"),
        Err(refused) => println!(rt; "{file_name}, {name}: {refused}"),
    };
}

// Totals.
fn show_totals(rt: &impl Print) {
    show(
        rt,
        "three tasks",
        &THREE,
        "0, 2, 0, 0, 1, 0, 2, 1, 1, 0, 1, 0, 1, 2, 1, 0, 0",
        &[0, 2, 0, 0, 1, 0, 2, 1, 1, 0, 1, 0, 1, 2, 1, 0, 0],
    );
    show(
        rt,
        "three tasks",
        &THREE,
        "0, 2, 0, 0, 0: no run within",
        &[0, 2, 0, 0, 0],
    );
    show(
        rt,
        "three tasks",
        &THREE,
        "0, 2, 0, 0, 2, 0, 2, 1, 1, 0, 0, 1, 2, 2, 1, 0, 1, 0, 1, 1, 1, 0, 0: one after the other",
        &[
            0, 2, 0, 0, 2, 0, 2, 1, 1, 0, 0, 1, 2, 2, 1, 0, 1, 0, 1, 1, 1, 0, 0,
        ],
    );
    show(
        rt,
        "three tasks, one of which reads nothing",
        &AROUND,
        "0, 1, 0, 1, 0, 1, 2, 1, 0, 1, 0, 0, 1, 1, 0, 0",
        &[0, 1, 0, 1, 0, 1, 2, 1, 0, 1, 0, 0, 1, 1, 0, 0],
    );
}

// Checks 12 and 20: the first number at fault decides.
fn show_rules(rt: &impl Print) {
    show(
        rt,
        "three tasks",
        &THREE,
        "0, 2, 0, 0, 1, 0, 2, 0, 1, 0, 0: the outer task within itself",
        &[0, 2, 0, 0, 1, 0, 2, 0, 1, 0, 0],
    );
    show(
        rt,
        "three tasks",
        &THREE,
        "0, 2, 0, 0, 1, 0, 2, 1, 1, 0, 1, 0, 1, 0: a task around, and cut off",
        &[0, 2, 0, 0, 1, 0, 2, 1, 1, 0, 1, 0, 1, 0],
    );
    show(
        rt,
        "three tasks",
        &THREE,
        "0, 2, 0, 0, 1, 0, 2, 1, 1, 0, 17, 0, 1, 0: 17 runs before it",
        &[0, 2, 0, 0, 1, 0, 2, 1, 1, 0, 17, 0, 1, 0],
    );
    show(
        rt,
        "three tasks",
        &THREE,
        "0, 2, 0, 0, 1, 0, 2, 1, 1, 0, 1, 0, 1, 3: no such task",
        &[0, 2, 0, 0, 1, 0, 2, 1, 1, 0, 1, 0, 1, 3],
    );
    show(
        rt,
        "three tasks",
        &THREE,
        "0, 2, 0, 0, 1, 0, 2, 1, 1, 0: cut before the inner count",
        &[0, 2, 0, 0, 1, 0, 2, 1, 1, 0],
    );
    show(
        rt,
        "three tasks",
        &THREE,
        "0, 2, 0, 0, 1, 0, 2, 1, 1, 0, 1, 0, 1, 2, 1, 0, 0, 0: a number too many",
        &[0, 2, 0, 0, 1, 0, 2, 1, 1, 0, 1, 0, 1, 2, 1, 0, 0, 0],
    );
    show(
        rt,
        "three tasks",
        &THREE,
        "0, 2, 0, 0, 2, 0, 2, 1, 1, 0, 0, 0, 1, 2, 1, 0, 0: a falling pair",
        &[0, 2, 0, 0, 2, 0, 2, 1, 1, 0, 0, 0, 1, 2, 1, 0, 0],
    );
    show(
        rt,
        "three tasks",
        &THREE,
        "0, 2, 0, 0, 1, 0, 2, 1, 1, 0, 1, 1, 1, 0, 1, 0, 0: a point behind the inner path, and then a task around",
        &[0, 2, 0, 0, 1, 0, 2, 1, 1, 0, 1, 1, 1, 0, 1, 0, 0],
    );
}

// Check 13, of inner runs too.
fn show_incomplete(rt: &impl Print) {
    show(
        rt,
        "three tasks",
        &THREE,
        "0, 2, 0, 0, 1, 0, 2, 1, 1, 0, 1, 0, 0, 2, 1, 0, 0: a wrong number of references done within",
        &[0, 2, 0, 0, 1, 0, 2, 1, 1, 0, 1, 0, 0, 2, 1, 0, 0],
    );
    show(
        rt,
        "three tasks",
        &THREE,
        "0, 2, 0, 0, 1, 0, 2, 1, 1, 0, 1, 0, 1, 2, 2, 0, 0, 0: no such jump within",
        &[0, 2, 0, 0, 1, 0, 2, 1, 1, 0, 1, 0, 1, 2, 2, 0, 0, 0],
    );
}

// Check 16, which follows 13 of every run; a preempting task's flags don't matter.
fn show_masked(rt: &impl Print) {
    let mut second = THREE;
    second[32] = 1;
    let mut third = THREE;
    third[39] = 1;
    let mut first = THREE;
    first[22] = 1;
    show(
        rt,
        "three tasks, task 1 masked",
        &second,
        "0, 2, 0, 0, 1, 0, 2, 1, 1, 0, 1, 0, 1, 2, 1, 0, 0",
        &[0, 2, 0, 0, 1, 0, 2, 1, 1, 0, 1, 0, 1, 2, 1, 0, 0],
    );
    show(
        rt,
        "three tasks, task 2 masked",
        &third,
        "0, 2, 0, 0, 1, 0, 2, 1, 1, 0, 1, 0, 1, 2, 1, 0, 0",
        &[0, 2, 0, 0, 1, 0, 2, 1, 1, 0, 1, 0, 1, 2, 1, 0, 0],
    );
    show(
        rt,
        "three tasks, task 0 masked",
        &first,
        "0, 2, 0, 0, 2, 0, 2, 1, 1, 0, 0, 1, 3, 2, 1, 0, 0: then a wrong number of references done",
        &[0, 2, 0, 0, 2, 0, 2, 1, 1, 0, 0, 1, 3, 2, 1, 0, 0],
    );
}

// Eight tasks one within the other.
const EIGHT_DEEP: [u16; 46] = [
    0, 1, 0, 1, 0, 1, 1, 1, 0, 1, 0, 1, 2, 1, 0, 1, 0, 1, 3, 1, 0, 1, 0, 1, 4, 1, 0, 1, 0, 1, 5, 1,
    0, 1, 0, 1, 6, 1, 0, 1, 0, 1, 7, 1, 0, 0,
];

// The same, with a count of the last run.
fn show_depth(rt: &impl Print, name: &str, count: u16) {
    let mut sheet = EIGHT_DEEP;
    sheet[45] = count;
    show(rt, "eight tasks one within the other", &EIGHT, name, &sheet);
}

fn main(rt: HostRuntime) {
    show_totals(&rt);
    show_rules(&rt);
    show_incomplete(&rt);
    show_masked(&rt);
    show_depth(&rt, "no run within the last", 0);
    show_depth(&rt, "one run within the last", 1);
    show_depth(&rt, "sixteen runs within the last", 16);
    show_depth(&rt, "seventeen runs within the last", 17);
    show(
        &rt,
        "two blocks, no successors",
        &APART,
        "an empty sheet",
        &[0u16; 0],
    );
    show(&rt, "three tasks", &THREE, "an empty sheet", &[0u16; 0]);
}
