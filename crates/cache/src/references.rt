// References in a list of bytes, and for each cache block the first and the last of them.
ghost use Rattle.std.specs.Prelude.{◌≡◌, [], ℕ, ◌+◌, ◌<◌, length};
ghost use Rattle.cache.specs.References.{Real, All, number_at, numbers};
ghost use Rattle.cache.specs.Cache.{wide, empty_row, with_reference, with_references, first_references};
ghost use Rattle.cache.specs.Firsts.{with_first};
ghost use Rattle.cache.specs.SoFar.{RowsSoFar, OneMore};
ghost use Rattle.cache.specs.Shape.{shaped, Holds};

use crate::blocks::{CacheShape, MemoryBlock};
use crate::row::Row;

// The two-byte number at i, low byte first.
pub fn number_at(bytes: &[u8], i: usize) -> u16
    requires { i + 1 < length bytes.now }
    ensures { result ≡ number_at bytes.now i }
{
    u16::from_le_bytes([bytes[i], bytes[i + 1]])
}

// For each cache block the first and the last reference to it, of references made in order.
#[derive(Clone, Copy)]
pub struct BlockReferences {
    pub first: Row,
    pub last: Row,
}

impl BlockReferences {
    // Both rows before the first reference: those of no reference, for every number of cache blocks.
    fn none() -> BlockReferences
        ensures { (n : ℕ) → RowsSoFar (wide 32 n) [] result.first.cells result.last.cells }
    {
        BlockReferences {
            first: Row::EMPTY,
            last: Row::EMPTY,
        }
    }

    // One more reference, on the cells of both rows: its cache block is found once, one cell is tested and two are stored. If the rows
    // were those of some references, they are now those of the same references and m after them.
    fn with_reference(
        first: &mut [u16; 32],
        last: &mut [u16; 32],
        m: MemoryBlock,
        shape: CacheShape,
    )
        requires { Holds 32 shape × (length first.old ≡ 32) × (length last.old ≡ 32) }
        ensures { (first.new ≡ with_first (shaped 32 shape) first.old m.0)
            × (last.new ≡ with_reference (shaped 32 shape) last.old m.0)
            × OneMore (shaped 32 shape) m.0 first.old last.old first.new last.new }
    {
        let c = m.cache_block(shape);
        let kept = Row::first_of(first, c, m);
        Row::with_reference(first, c, kept);
        Row::with_reference(last, c, m);
    }

    // Both rows in one pass over the references: after every one read, both are those of the references so far.
    pub fn gather(references: &[u8], shape: CacheShape) -> BlockReferences
        requires { Holds 32 shape × All Real (numbers references.now) }
        ensures { (result.first.cells ≡ first_references (shaped 32 shape) (numbers references.now))
            × (result.last.cells ≡ with_references (shaped 32 shape) (empty_row (shaped 32 shape)) (numbers references.now)) }
    {
        let none = BlockReferences::none();
        let mut first = none.first;
        let mut last = none.last;
        // By index: `number_at` reads two bytes.
        for i in 0..references.len() / 2 {
            let m = MemoryBlock::new(number_at(references, 2 * i));
            BlockReferences::with_reference(&mut first.cells, &mut last.cells, m, shape);
        }
        BlockReferences { first, last }
    }
}
