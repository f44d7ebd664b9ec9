// Prints the time of some numbers of misses, penalties and clocks, and what check 17 refuses.
#![tactic(auto)]

use microseconds::{Time, microseconds};

// What the call answers. A failed write is passed over: what the program prints is compared as a whole.
fn show(rt: &impl Print, number: u32, penalty: u32, clock: u32) {
    let _ = print!(rt; "number {number}, penalty {penalty}, clock {clock}: ");
    let _ = match microseconds(number, penalty, clock) {
        Ok(Time { whole, remainder }) => println!(rt;
            "{whole} microseconds, remainder {remainder}"
        ),
        Err(refused) => println!(rt; "{refused}"),
    };
}

// Times with and without a remainder, and those at the bounds.
fn show_times(rt: &impl Print) {
    show(rt, 1, 1, 3);
    show(rt, 6, 30, 72000);
    show(rt, 5, 20, 168000);
    show(rt, 0, 1, 1);
    show(rt, 0, 1000, 1000000);
    show(rt, 16, 1000, 1);
    show(rt, 16, 1000, 1000000);
    show(rt, 1, 1, 1000000);
}

// A number, a penalty or a clock outside its bounds.
fn show_refused(rt: &impl Print) {
    show(rt, 17, 1, 1);
    show(rt, 4294967295, 1, 1);
    show(rt, 1, 0, 1);
    show(rt, 1, 1001, 1);
    show(rt, 1, 4294967295, 1);
    show(rt, 1, 1, 0);
    show(rt, 1, 1, 1000001);
    show(rt, 1, 1, 4294967295);
}

fn main(rt: HostRuntime) {
    show_times(&rt);
    show_refused(&rt);
}
