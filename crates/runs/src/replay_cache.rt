// The replay cache, lent by `&mut` for each reference.
ghost use Rattle.std.specs.Prelude.{◌≡◌, ◌+◌, ◌*◌, ◌/◌, ◌^◌, ◌<◌, length};
ghost use Rattle.cache.specs.Cache.{hits};
ghost use Rattle.cache.specs.References.{number_at, numbers};
ghost use Rattle.cache.specs.Shape.{shaped, Holds};
ghost use Rattle.model.specs.Runs.{own_references};
ghost use Rattle.runs.specs.Running.{row_count, held, with_own};

use cache::blocks::{CacheShape, MemoryBlock};
use cache::references::number_at;
use cache::row::Row;

// A cache row and the misses so far.
#[derive(Clone, Copy)]
pub struct ReplayCache {
    pub cells: [u16; 32],
    pub misses: u32,
}

// One reference on a lent row: a miss adds 1 to the misses so far.
pub fn referred(cells: &mut [u16; 32], misses: u32, m: MemoryBlock, shape: CacheShape) -> u32
    requires { Holds 32 shape × (misses + 1 < 2 ^ 32) × (length cells.old ≡ 32) }
    ensures { row_count cells.new result ≡ with_own (shaped 32 shape) (row_count cells.old misses) m.0 }
{
    let c = m.cache_block(shape);
    let old = Row::held(cells, c);
    Row::with_reference(cells, c, m);
    let v = m.number();
    if old == v { misses } else { misses + 1 }
}

// One reference, on a lent cache, and whether it hits.
pub fn refer(cache: &mut ReplayCache, m: MemoryBlock, shape: CacheShape) -> bool
    requires { Holds 32 shape × (cache.old.misses + 1 < 2 ^ 32) }
    ensures { (held cache.new ≡ with_own (shaped 32 shape) (held cache.old) m.0)
        × (result ≡ hits (shaped 32 shape) cache.old.cells m.0) }
{
    let before = cache.misses;
    let after = referred(&mut cache.cells, before, m, shape);
    cache.misses = after;
    after == before
}

// The reference numbered i of a list of bytes, two for each.
pub fn reference_at(references: &[u8], i: usize) -> MemoryBlock
    requires { i < length references.now / 2 }
    ensures { result.0 ≡ number_at references.now (2 * i) }
{
    MemoryBlock::new(number_at(references, 2 * i))
}

// References in order, two bytes each, on a lent cache.
pub fn refer_all(references: &[u8], shape: CacheShape, cache: &mut ReplayCache)
    requires { Holds 32 shape × (cache.old.misses + length references.now / 2 < 2 ^ 32) }
    ensures { held cache.new ≡ own_references (shaped 32 shape) (held cache.old) (numbers references.now) }
{
    // By number: each reference is two bytes.
    for i in 0..references.len() / 2 {
        refer(cache, reference_at(references, i), shape);
    }
}
