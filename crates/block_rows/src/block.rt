// A block of a task, with what the points in it are made of.
ghost use Rattle.cache.specs.References.{numbers, Real, All};
ghost use Rattle.block_rows.specs.Parts.{BlockParts, all_real_prop};

use cache::blocks::CacheShape;

// A block of a task of so many blocks: its number, the set of the blocks that lead to it, and its references, two bytes each, which a cache of this shape
// gets, in rows of w places.
#[derive(Clone, Copy)]
pub struct Block<'a> {
    pub number: usize,
    pub blocks: usize,
    pub before: u32,
    pub references: &'a [u8],
    pub shape: CacheShape,
    pub w: usize,
    ghost is: { BlockParts w shape blocks references.now },
    ghost real: { All Real (numbers references.now) } by { all_real_prop (numbers references.now) },
}
