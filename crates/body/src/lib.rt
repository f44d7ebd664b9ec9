// The body of a task: whether its bytes keep the layout, and where its blocks and their parts stand.
#![tactic(auto)]

pub mod block;
pub mod jumps;
pub mod masks;
pub mod paths;
pub mod predecessors;

ghost use Rattle.std.specs.Prelude.{◌≡◌, true, ◌≤◌, length, is_some, IfSome};
ghost use Rattle.body.specs.Decode.{decode, task_of};
ghost use Rattle.body.specs.Walk.{kept_of, Walked};
ghost use Rattle.body.specs.Parts.{successors_end, references_end, successors_at, references_at};

// The most blocks of a task.
const BLOCKS: u8 = 24;

// A body that keeps its layout, and where its blocks stand.
#[derive(Clone, Copy)]
pub struct BodyWalk<'a> {
    pub body: &'a [u8],
    pub blocks: usize,
    pub starts: [usize; 24],
    ghost walked: { Walked body.now blocks starts },
}

// Check 8 of one body, and where its blocks begin, if it keeps its layout: the one place where the bytes of a body are decoded.
pub fn walk(body: &[u8]) -> Option<BodyWalk<'_>>
    ensures kept { is_some result ≡ kept_of (decode body.now) }
    ensures same { IfSome result (λ w. w.body.now ≡ body.now) }
{
    if body.len() < 2 {
        return None;
    }
    let blocks = body[0];
    if blocks < 1 {
        return None;
    }
    if BLOCKS < blocks {
        return None;
    }
    if body[1] != 0 {
        return None;
    }
    let mut starts = [0usize; 24];
    let mut at: usize = 2;
    let all = usize::from(blocks);
    // By number: the loop ends with the last block, and not with the bytes.
    for b in 0..all {
        starts[b] = at;
        at = block::block_end(body, at, blocks)?;
    }
    if at < body.len() {
        return None;
    }
    Some(BodyWalk {
        body,
        blocks: all,
        starts,
    })
}

// The walk of a body that is known to keep its layout.
pub fn kept_walk(body: &[u8]) -> BodyWalk<'_>
    requires { kept_of (decode body.now) ≡ true }
    ensures { result.body.now ≡ body.now }
{
    let Some(walked) = walk(body) else {
        unreachable!()
    };
    walked
}

// How many blocks a body has that keeps its layout.
pub fn block_count(body: &[u8]) -> usize
    requires { kept_of (decode body.now) ≡ true }
    ensures { (result ≡ length (task_of (decode body.now))) × (1 ≤ result) × (result ≤ 24) }
{
    usize::from(body[0])
}

// The successors of the block that begins at `at`, one byte each, as a part of the body; where in the body it stands is left open.
pub fn successors(body: &[u8], at: usize) -> &[u8]
    requires { successors_end at body.now ≤ length body.now }
    ensures { result.now ≡ successors_at at body.now }
{
    let from = at + 3;
    let to = from + usize::from(body[at + 1]);
    &body[from..to]
}

// The references of the block that begins at `at`, two bytes each, as a part of the body; where in the body it stands is left open.
pub fn references(body: &[u8], at: usize) -> &[u8]
    requires { references_end at body.now ≤ length body.now }
    ensures { result.now ≡ references_at at body.now }
{
    let from = at + 3 + usize::from(body[at + 1]);
    let to = from + 2 * usize::from(body[at + 2]);
    &body[from..to]
}
