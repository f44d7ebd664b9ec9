// Prints what crpd prints for some files, each after a line that names the file.
#![tactic(auto)]

ghost use Rattle.std.specs.Prelude.{◌<◌};

use example_files::{
    APART, EIGHT, ENTERED, MASKED, ONE, SHARED_BOTH, SHARED_GAIN, SHARED_SAME, SIX_FORKS_OF_TASK_1,
    TWICE, WIDE, with_byte,
};
use report::report;

// Prints the text. A failed write is passed over: what the program prints is compared as a whole.
fn print(rt: &impl Print, text: &[u8]) {
    let _ = rt.write_all(text);
}

// What is printed for the file, after its name.
fn show(rt: &impl Print, name: &[u8], file: &[u8]) {
    let mut area = [0u16; 24832];
    let mut out = [0u8; 2048];
    let told = report(file, &mut area, &mut out);
    let length = told.length;
    print(rt, name);
    print(rt, &out[..length]);
}

// What is printed for E with another byte.
fn show_changed(rt: &impl Print, name: &[u8], at: usize, value: u8)
    requires { at < 33 }
{
    show(rt, name, &with_byte(at, value));
}

// Files that the reader refuses.
fn show_refused(rt: &impl Print) {
    show(rt, b"# no bytes\n", &[]);
    show(rt, b"# 7,545 bytes\n", &[0u8; 7545]);
    show_changed(rt, b"# E, byte 0 = 44\n", 0, 0x44);
    show_changed(rt, b"# E, byte 21 = 01\n", 21, 0x01);
    show(rt, b"# two blocks, no successors\n", &APART);
}

// Files that it accepts.
fn show_accepted(rt: &impl Print) {
    show(rt, b"# six forks\n", &SIX_FORKS_OF_TASK_1);
    show(rt, b"# one task\n", &ONE);
    show(rt, b"# sixteen cache blocks\n", &WIDE);
    show(rt, b"# eight tasks\n", &EIGHT);
}

// Files with masked blocks.
fn show_masked(rt: &impl Print) {
    show_changed(rt, b"# E, byte 18 = 01: task 0 masked\n", 18, 0x01);
    show_changed(rt, b"# E, byte 28 = 01: task 1 masked\n", 28, 0x01);
    show(rt, b"# three blocks, the second masked\n", &MASKED);
}

// Files whose tasks share a memory block.
fn show_shared(rt: &impl Print) {
    show_changed(rt, b"# E, byte 31 = 00: memory block 0 shared\n", 31, 0x00);
    show(rt, b"# an empty block, then a shared one\n", &SHARED_GAIN);
    show(rt, b"# one of two memory blocks shared\n", &SHARED_BOTH);
    show(rt, b"# a loop over the shared memory block\n", &SHARED_SAME);
}

// Files where it matters that a preemption may follow every single reference, and that none comes before the first.
fn show_points(rt: &impl Print) {
    show(rt, b"# one memory block read twice in a block\n", &TWICE);
    show(rt, b"# a masked block, then the same reference\n", &ENTERED);
}

fn main(rt: HostRuntime) {
    show_refused(&rt);
    show_accepted(&rt);
    show_masked(&rt);
    show_shared(&rt);
    show_points(&rt);
}
