// One block of a body: whether it keeps the layout, and where it ends.
ghost use Rattle.std.specs.Prelude.{◌≡◌, ◌+◌, ◌*◌, ◌≤◌, ◌<◌, length};
ghost use Rattle.cache.specs.References.{numbers};
ghost use Rattle.body.specs.Decode.{rises_below, all_real, block_test};
ghost use Rattle.body.specs.BlockEnd.{block_end};

use cache::references::number_at;
use cache::row::Row;

// The largest flags byte: 1 marks a masked block, after which no preemption comes.
const FLAGS: u8 = 1;

// The most successors of a block.
const SUCCESSORS: usize = 4;

// The most references of a block.
const REFERENCES: usize = 16;

// Whether each successor is below the next one, and the last below the number of blocks.
fn rises_below(successors: &[u8], blocks: u8) -> bool
    ensures { result ≡ rises_below blocks successors.now }
{
    let [first, others @ ..] = successors else {
        return true;
    };
    let mut last = *first;
    for &next in others {
        if next <= last {
            return false;
        }
        last = next;
    }
    last < blocks
}

// Whether no reference is the number for nothing.
fn all_real(references: &[u8]) -> bool
    ensures { result ≡ all_real (numbers references.now) }
{
    // By number: each reference is two bytes.
    for i in 0..references.len() / 2 {
        if number_at(references, 2 * i) == Row::NOTHING {
            return false;
        }
    }
    true
}

// Whether a block with these flags and counts, and the bytes that follow them, keeps the layout.
fn block_kept(flags: u8, successors: usize, references: usize, rest: &[u8], blocks: u8) -> bool
    ensures { result ≡ block_test blocks flags successors references rest.now }
{
    if FLAGS < flags {
        return false;
    }
    if SUCCESSORS < successors {
        return false;
    }
    if REFERENCES < references {
        return false;
    }
    let end = successors + 2 * references;
    if rest.len() < end {
        return false;
    }
    if rises_below(&rest[..successors], blocks) {
        return all_real(&rest[successors..end]);
    }
    false
}

// Where the block that begins at `at` ends, in a body of this many blocks; none where it breaks the layout.
pub fn block_end(body: &[u8], at: usize, blocks: u8) -> Option<usize>
    requires { at ≤ length body.now }
    ensures { result ≡ block_end blocks at body.now }
{
    let from = at + 3;
    if body.len() < from {
        return None;
    }
    let successors = usize::from(body[at + 1]);
    let references = usize::from(body[at + 2]);
    if block_kept(body[at], successors, references, &body[from..], blocks) {
        return Some(from + successors + 2 * references);
    }
    None
}
