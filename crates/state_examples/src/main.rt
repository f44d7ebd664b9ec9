// Prints the states of tasks: of E, of figure 1's graph, of forks, loops and blocks without references.
#![tactic(auto)]

use area::AREA_LENGTH;
use area::row::row;
use example_files::{
    E, END_WITH_SUCCESSORS, FIGURE_1, FIVE_FORKS, LOOP_WITH_FORK, ONE_CACHE_BLOCK, SIX_FORKS,
    SIXTEEN_CACHE_BLOCKS, WITHOUT_REFERENCES,
};
use states::states::states;

// A failed write is passed over, here and below: what the program prints is compared as a whole.

// What one place of a row holds.
fn print_place(rt: &impl Print, m: u16) {
    let _ = if m == 65535 {
        print!(rt; " -")
    } else {
        print!(rt; " {m}")
    };
}

// The first n places of a row.
fn print_row(rt: &impl Print, kind: &str, places: &[u16], n: usize) {
    let _ = print!(rt; "    {kind}");
    for &m in &places[..n.min(places.len())] {
        print_place(rt, m);
    }
    let _ = println!(rt; "");
}

// The rows of one kind of a block.
fn show_rows(rt: &impl Print, area: &[u16], kind: &str, live: bool, block: usize, n: usize) {
    // By number: `row` asks for a row by its number.
    for number in 0..32 {
        let places = row(area, live, block, number);
        if !places.is_empty() {
            print_row(rt, kind, places, n);
        }
    }
}

// How many rows of each kind a block has.
fn show_counts(rt: &impl Print, area: &[u16], block: usize) {
    let reaching = (0..32)
        .filter(|&k| !row(area, false, block, k).is_empty())
        .count();
    let live = (0..32)
        .filter(|&k| !row(area, true, block, k).is_empty())
        .count();
    let _ = println!(rt; "  block {block}: reaching {reaching}, live {live}");
}

// The states of a block, with the first n places of each row, or only how many they are.
fn show_block(rt: &impl Print, area: &[u16], block: usize, n: usize) {
    show_counts(rt, area, block);
    if n != 0 {
        show_rows(rt, area, "reaching", false, block, n);
        show_rows(rt, area, "live", true, block, n);
    }
}

fn show_blocks(rt: &impl Print, area: &[u16], blocks: usize, n: usize) {
    // By number: the number of a block is printed.
    for block in 0..blocks {
        show_block(rt, area, block, n);
    }
}

// The states of the first blocks of a task.
fn show(rt: &impl Print, name: &str, file: &[u8], task: usize, blocks: usize, n: usize) {
    let mut area = [0u16; AREA_LENGTH];
    let _ = println!(rt; "{name}");
    match states(file, task, &mut area) {
        Ok(()) => show_blocks(rt, &area, blocks, n),
        Err(refused) => {
            let _ = println!(rt; "  {refused}");
        }
    }
}

// The states of E and of figure 1's graph.
fn show_documents(rt: &impl Print) {
    show(rt, "E, task 0", &E, 0, 1, 2);
    show(rt, "E, task 1", &E, 1, 1, 2);
    show(rt, "E, task 2", &E, 2, 0, 2);
    show(rt, "the graph of figure 1", &FIGURE_1, 0, 4, 4);
}

// The states of forks.
fn show_forks(rt: &impl Print) {
    show(rt, "five forks", &FIVE_FORKS, 0, 16, 0);
    show(rt, "six forks", &SIX_FORKS, 0, 19, 0);
    show(rt, "a loop with a fork", &LOOP_WITH_FORK, 0, 5, 2);
}

// The states of blocks of each kind, and of the smallest and the largest cache.
fn show_blocks_and_caches(rt: &impl Print) {
    show(
        rt,
        "an end block with successors",
        &END_WITH_SUCCESSORS,
        0,
        2,
        2,
    );
    show(
        rt,
        "a block without references",
        &WITHOUT_REFERENCES,
        0,
        3,
        2,
    );
    show(rt, "n = 1", &ONE_CACHE_BLOCK, 0, 4, 1);
    show(rt, "n = 16", &SIXTEEN_CACHE_BLOCKS, 0, 2, 16);
}

fn main(rt: HostRuntime) {
    show_documents(&rt);
    show_forks(&rt);
    show_blocks_and_caches(&rt);
}
