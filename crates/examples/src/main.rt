// Runs document 01's examples of project files, and those of document 02, Points 1, 3, 5 and 6, and prints what each call answers.
#![tactic(auto)]

ghost use Rattle.std.specs.Prelude.{◌≡◌, ◌≤◌, ◌<◌, length};

use example_files::{
    APART, E, ENTERED, MASKED, SHARED_BOTH, SHARED_GAIN, SHARED_SAME, TWICE, with_byte,
};
use project::answers::{Accepted, Refusal};
use replay::Counted;

// A failed write is passed over, here and below: what the program prints is compared as a whole.

// What reading the file answers.
fn show_reading(rt: &impl Print, name: &str, file: &[u8]) {
    let _ = match reader::read(file) {
        Ok(Accepted { n, t }) => println!(rt; "{name}: cache {n} tasks {t}"),
        Err(refused) => println!(rt; "{name}: {refused}"),
    };
}

// What reading E with another byte answers.
fn show_changed(rt: &impl Print, name: &str, at: usize, value: u8)
    requires { at < 33 }
{
    show_reading(rt, name, &with_byte(at, value));
}

// E, and files that the checks of length and head refuse.
fn show_heads(rt: &impl Print) {
    show_reading(rt, "E", &E);
    show_reading(rt, "7 bytes", &E[0..7]);
    show_reading(rt, "7,545 bytes", &[0u8; 7545]);
    show_changed(rt, "E, byte 0 = 44", 0, 0x44);
    show_changed(rt, "E, byte 4 = 02", 4, 0x02);
    show_changed(rt, "E, byte 5 = 00", 5, 0x00);
    show_changed(rt, "E, byte 6 = 09", 6, 0x09);
    show_changed(rt, "E, byte 7 = 01", 7, 0x01);
}

// Files that the checks of contents and bodies refuse, and two that they accept.
fn show_bodies(rt: &impl Print) {
    show_changed(rt, "E, byte 8 = 11", 8, 0x11);
    show_reading(rt, "E without its last byte", &E[0..32]);
    show_changed(rt, "E, byte 21 = 01", 21, 0x01);
    show_changed(rt, "E, byte 26 = 00", 26, 0x00);
    show_changed(rt, "E, byte 18 = 01: a masked block", 18, 0x01);
    show_changed(rt, "E, byte 18 = 02", 18, 0x02);
    show_reading(rt, "two blocks, no successors", &APART);
    show_changed(rt, "E, byte 31 = 00: a shared memory block", 31, 0x00);
}

// Where the body of a task of E stands, and how long it is.
fn show_place(rt: &impl Print, task: usize) {
    let found = reader::place(&E, task);
    let _ = println!(rt;
        "body of task {task} of E: {}, {}",
        found.start, found.length
    );
}

// What writing the joined bodies answers, in an out list of so many bytes.
fn show_writing(rt: &impl Print, name: &str, n: u8, bodies: &[u8], lengths: &[usize], room: usize)
    requires { room ≤ 34 }
{
    let mut out = [0u8; 34];
    let _ = match writer::write(n, bodies, lengths, &mut out[0..room]) {
        Ok(length) => println!(rt; "{name}: written {length}"),
        Err(refused) => println!(rt; "{name}: {refused}"),
    };
}

// Whether a file with E's n and contents, written again from its bodies, is that file.
fn show_same(rt: &impl Print, name: &str, file: &[u8])
    requires { length file.now ≡ 33 }
{
    let lengths = [10usize, 7];
    let mut out = [0u8; 33];
    let _ = writer::write(2, &file[16..33], &lengths, &mut out);
    let _ = if check::same(&out, file) {
        println!(rt; "{name} again: the same bytes")
    } else {
        print!(rt; "{name}")
    };
}

// The writer's answers for the bodies of E.
fn show_writings(rt: &impl Print) {
    let bodies = &E[16..33];
    let lengths = [10usize, 7];
    show_writing(rt, "E again, 32 bytes", 2, bodies, &lengths, 32);
    show_writing(rt, "E again, 34 bytes", 2, bodies, &lengths, 34);
    show_writing(rt, "n = 17", 17, bodies, &lengths, 34);
    show_writing(rt, "no lengths", 2, bodies, &lengths[0..0], 34);
    show_writing(rt, "lengths 10, 8", 2, bodies, &[10, 8], 34);
    show_writing(rt, "lengths 9, 8", 2, bodies, &[9, 8], 34);
    show_writing(rt, "lengths 17, 0", 2, bodies, &[17, 0], 34);
}

// What filling answers.
fn show_filling(rt: &impl Print, answer: Result<(), Refusal>) {
    let _ = match answer {
        Ok(()) => println!(rt; ": filled"),
        Err(refused) => println!(rt; ": {refused}"),
    };
}

// Table of E, with a work area and a table of so many numbers.
fn show_table(rt: &impl Print, area_length: usize, table_length: usize)
    requires { (area_length ≤ 24833) × (table_length ≤ 65) }
{
    let mut area = [0u16; 24833];
    let mut numbers = [0u16; 65];
    let _ = print!(rt; "Table of E, work area of {area_length}, table of {table_length}");
    show_filling(
        rt,
        table::table(&E, &mut area[0..area_length], &mut numbers[0..table_length]),
    );
}

// States of a task of E, with a work area of so many numbers.
fn show_states(rt: &impl Print, task: usize, area_length: usize)
    requires { area_length ≤ 24833 }
{
    let mut area = [0u16; 24833];
    let _ = print!(rt; "States of task {task} of E, work area of {area_length}");
    show_filling(
        rt,
        states::states::states(&E, task, &mut area[0..area_length]),
    );
}

// Table and States with lists of each length.
fn show_fillings(rt: &impl Print) {
    show_table(rt, 24832, 63);
    show_table(rt, 24832, 64);
    show_table(rt, 24832, 65);
    show_table(rt, 24831, 64);
    show_table(rt, 24833, 64);
    show_states(rt, 0, 24831);
    show_states(rt, 0, 24832);
    show_states(rt, 0, 24833);
    show_states(rt, 2, 24832);
}

// What replaying a sheet on a file answers.
fn show_replay_on(rt: &impl Print, file_name: &str, file: &[u8], name: &str, sheet: &[u16]) {
    let _ = match replay::replay(file, sheet) {
        Ok(
            Counted {
                undisturbed,
                disturbed,
                lost,
            },
        ) => println!(rt;
            "Replay on {file_name} of {name}: U = {undisturbed}, D = {disturbed}, lost hits = {lost}"
        ),
        Err(refused) => println!(rt; "Replay on {file_name} of {name}: {refused}"),
    };
}

// What replaying a sheet on E answers.
fn show_replay(rt: &impl Print, name: &str, sheet: &[u16]) {
    show_replay_on(rt, "E", &E, name, sheet);
}

// What replaying a path of so many blocks of task 0 on E answers, without preemptions.
fn show_long_path(rt: &impl Print, name: &str, blocks: usize)
    requires { blocks ≤ 1537 }
{
    let mut sheet = [0u16; 1540];
    sheet[1] = blocks as u16;
    show_replay(rt, name, &sheet[0..blocks + 3]);
}

// The replays of document 01, where both references of the block are done.
fn show_replays(rt: &impl Print) {
    show_replay(
        rt,
        "0, 2, 0, 0, 1, 0, 2, 1, 1, 0",
        &[0, 2, 0, 0, 1, 0, 2, 1, 1, 0],
    );
    show_replay(rt, "0, 2, 0, 0, 0", &[0, 2, 0, 0, 0]);
    show_replay(
        rt,
        "0, 2, 0, 0, 1, 1, 2, 1, 1, 0",
        &[0, 2, 0, 0, 1, 1, 2, 1, 1, 0],
    );
}

// Sheets that are not laid out as one.
fn show_sheets(rt: &impl Print) {
    show_replay(rt, "an empty sheet", &[0u16; 0]);
    show_replay(rt, "0, 0", &[0, 0]);
    show_replay(rt, "2, 1, 0, 0: no such task", &[2, 1, 0, 0]);
    show_replay(rt, "0, 1, 0: no count", &[0, 1, 0]);
    show_replay(rt, "0, 1, 0, 0, 0: a number too many", &[0, 1, 0, 0, 0]);
    show_replay(rt, "0, 1, 0, 17: too many preemptions", &[0, 1, 0, 17]);
}

// Sheets with a preemption behind the path, out of order, at the point of another, or by the task itself.
fn show_preemptions(rt: &impl Print) {
    show_replay(
        rt,
        "0, 1, 0, 1, 1, 2, 1, 1, 0: a position behind the path",
        &[0, 1, 0, 1, 1, 2, 1, 1, 0],
    );
    show_replay(
        rt,
        "0, 2, 0, 0, 2, 1, 2, 1, 1, 0, 0, 2, 1, 1, 0: a falling position",
        &[0, 2, 0, 0, 2, 1, 2, 1, 1, 0, 0, 2, 1, 1, 0],
    );
    show_replay(
        rt,
        "0, 2, 0, 0, 2, 0, 2, 1, 1, 0, 0, 2, 1, 1, 0: equal points",
        &[0, 2, 0, 0, 2, 0, 2, 1, 1, 0, 0, 2, 1, 1, 0],
    );
    show_replay(
        rt,
        "0, 1, 0, 1, 0, 2, 0, 1, 0: preempted by itself",
        &[0, 1, 0, 1, 0, 2, 0, 1, 0],
    );
}

// Preemptions between two references, and where a wrong number of references is done.
fn show_done(rt: &impl Print) {
    show_replay(
        rt,
        "0, 2, 0, 0, 1, 0, 1, 1, 1, 0: between two references",
        &[0, 2, 0, 0, 1, 0, 1, 1, 1, 0],
    );
    show_replay(
        rt,
        "0, 2, 0, 0, 1, 0, 0, 1, 1, 0: before the first reference",
        &[0, 2, 0, 0, 1, 0, 0, 1, 1, 0],
    );
    show_replay(
        rt,
        "0, 2, 0, 0, 1, 0, 3, 1, 1, 0: more references than the block has",
        &[0, 2, 0, 0, 1, 0, 3, 1, 1, 0],
    );
    show_replay(
        rt,
        "0, 2, 0, 0, 1, 2, 2, 1, 1, 0: a position behind the path",
        &[0, 2, 0, 0, 1, 2, 2, 1, 1, 0],
    );
}

// Two preemptions: fewer references done at the same position, also where the number is wrong, and at the next position.
fn show_two_points(rt: &impl Print) {
    show_replay(
        rt,
        "0, 2, 0, 0, 2, 0, 2, 1, 1, 0, 0, 1, 1, 1, 0: a falling number of references",
        &[0, 2, 0, 0, 2, 0, 2, 1, 1, 0, 0, 1, 1, 1, 0],
    );
    show_replay(
        rt,
        "0, 2, 0, 0, 2, 0, 9, 1, 1, 0, 0, 2, 1, 1, 0: a wrong and falling one",
        &[0, 2, 0, 0, 2, 0, 9, 1, 1, 0, 0, 2, 1, 1, 0],
    );
    show_replay(
        rt,
        "0, 2, 0, 0, 2, 0, 2, 1, 1, 0, 1, 1, 1, 1, 0: fewer at the next position",
        &[0, 2, 0, 0, 2, 0, 2, 1, 1, 0, 1, 1, 1, 1, 0],
    );
}

// Files where the points of a block matter: one reads a memory block twice, in the other a masked block comes first.
fn show_points(rt: &impl Print) {
    show_replay_on(
        rt,
        "one memory block read twice",
        &TWICE,
        "0, 1, 0, 1, 0, 1, 1, 1, 0",
        &[0, 1, 0, 1, 0, 1, 1, 1, 0],
    );
    show_replay_on(
        rt,
        "one memory block read twice",
        &TWICE,
        "0, 1, 0, 1, 0, 2, 1, 1, 0",
        &[0, 1, 0, 1, 0, 2, 1, 1, 0],
    );
    show_replay_on(
        rt,
        "a masked block, then the same reference,",
        &ENTERED,
        "0, 2, 0, 1, 1, 1, 0, 1, 1, 0",
        &[0, 2, 0, 1, 1, 1, 0, 1, 1, 0],
    );
    show_replay_on(
        rt,
        "a masked block, then the same reference,",
        &ENTERED,
        "0, 2, 0, 1, 1, 1, 1, 1, 1, 0",
        &[0, 2, 0, 1, 1, 1, 1, 1, 1, 0],
    );
}

// Sheets with the longest path, with one that is too long, and with paths that the graph does not have.
fn show_paths(rt: &impl Print) {
    show_long_path(rt, "a path of 1,536 blocks", 1536);
    show_long_path(rt, "a path of 1,537 blocks", 1537);
    show_replay(rt, "0, 1, 5, 0", &[0, 1, 5, 0]);
    show_replay(rt, "0, 1, 65535, 0", &[0, 1, 65535, 0]);
    show_replay(rt, "1, 2, 0, 0, 0: no such jump", &[1, 2, 0, 0, 0]);
    show_replay(
        rt,
        "0, 2, 0, 0, 1, 0, 2, 1, 1, 1: no such block",
        &[0, 2, 0, 0, 1, 0, 2, 1, 1, 1],
    );
}

// Runs of a task whose one block is masked.
fn show_masked_task(rt: &impl Print) {
    let file = with_byte(18, 0x01);
    let name = "E with byte 18 = 01";
    show_replay_on(
        rt,
        name,
        &file,
        "0, 2, 0, 0, 1, 0, 2, 1, 1, 0",
        &[0, 2, 0, 0, 1, 0, 2, 1, 1, 0],
    );
    show_replay_on(rt, name, &file, "0, 2, 0, 0, 0", &[0, 2, 0, 0, 0]);
    show_replay_on(
        rt,
        name,
        &file,
        "0, 2, 0, 0, 1, 0, 2, 1, 2, 0, 0: no such jump",
        &[0, 2, 0, 0, 1, 0, 2, 1, 2, 0, 0],
    );
    show_replay_on(
        rt,
        name,
        &file,
        "0, 2, 0, 0, 1, 0, 3, 1, 1, 0: more references than the block has",
        &[0, 2, 0, 0, 1, 0, 3, 1, 1, 0],
    );
}

// Runs through a masked block: preempted before it, in it, and in it the second time.
fn show_masked_block(rt: &impl Print) {
    let name = "three blocks, the second masked,";
    show_replay_on(
        rt,
        name,
        &MASKED,
        "0, 3, 0, 1, 2, 1, 0, 2, 1, 1, 0",
        &[0, 3, 0, 1, 2, 1, 0, 2, 1, 1, 0],
    );
    show_replay_on(
        rt,
        name,
        &MASKED,
        "0, 3, 0, 1, 2, 1, 1, 1, 1, 1, 0",
        &[0, 3, 0, 1, 2, 1, 1, 1, 1, 1, 0],
    );
    show_replay_on(
        rt,
        name,
        &MASKED,
        "0, 3, 0, 1, 2, 2, 0, 2, 1, 1, 0, 1, 1, 1, 1, 0",
        &[0, 3, 0, 1, 2, 2, 0, 2, 1, 1, 0, 1, 1, 1, 1, 0],
    );
}

// Runs of tasks that share a memory block: it stays in the cache, is loaded by the preempting task first, or another is lost.
fn show_shared(rt: &impl Print) {
    show_replay_on(
        rt,
        "E with byte 31 = 00",
        &with_byte(31, 0x00),
        "0, 2, 0, 0, 1, 0, 2, 1, 1, 0",
        &[0, 2, 0, 0, 1, 0, 2, 1, 1, 0],
    );
    show_replay_on(
        rt,
        "a loop over the shared memory block",
        &SHARED_SAME,
        "0, 2, 0, 0, 1, 0, 1, 1, 1, 0",
        &[0, 2, 0, 0, 1, 0, 1, 1, 1, 0],
    );
    show_replay_on(
        rt,
        "an empty block, then a shared one,",
        &SHARED_GAIN,
        "0, 2, 0, 1, 1, 0, 0, 1, 1, 0",
        &[0, 2, 0, 1, 1, 0, 0, 1, 1, 0],
    );
    show_replay_on(
        rt,
        "one of two memory blocks shared",
        &SHARED_BOTH,
        "0, 2, 0, 1, 1, 0, 1, 1, 1, 0",
        &[0, 2, 0, 1, 1, 0, 1, 1, 1, 0],
    );
    show_replay_on(
        rt,
        "one of two memory blocks shared",
        &SHARED_BOTH,
        "0, 2, 0, 1, 1, 1, 1, 1, 1, 0",
        &[0, 2, 0, 1, 1, 1, 1, 1, 1, 0],
    );
}

fn main(rt: HostRuntime) {
    show_heads(&rt);
    show_bodies(&rt);
    show_place(&rt, 0);
    show_place(&rt, 1);
    show_place(&rt, 2);
    show_same(&rt, "E", &E);
    show_same(&rt, "E with byte 31 = 00", &with_byte(31, 0x00));
    show_writings(&rt);
    show_fillings(&rt);
    show_replays(&rt);
    show_sheets(&rt);
    show_preemptions(&rt);
    show_done(&rt);
    show_two_points(&rt);
    show_paths(&rt);
    show_masked_task(&rt);
    show_masked_block(&rt);
    show_shared(&rt);
    show_points(&rt);
}
