// Memory blocks and cache blocks. The mapping is the only way from one to the other.
ghost use Rattle.std.specs.Prelude.{◌≡◌, ◌<◌};
ghost use Rattle.cache.specs.Shape.{shaped};

#[derive(Clone, Copy)]
pub struct MemoryBlock(u16);

#[derive(Clone, Copy)]
pub struct CacheBlock(u8);

// A cache: how many cache blocks it has.
#[derive(Clone, Copy)]
pub struct CacheShape {
    pub blocks: u8,
}

impl MemoryBlock {
    pub fn new(m: u16) -> MemoryBlock
        ensures { result.0 ≡ m }
    {
        MemoryBlock(m)
    }

    pub fn number(self) -> u16
        ensures { result ≡ self.0 }
    {
        self.0
    }

    // The cache block that the memory block goes to.
    pub fn cache_block(self, shape: CacheShape) -> CacheBlock
        requires { 0 < shape.blocks }
        ensures { result.0 ≡ (shaped 32 shape).place self.0 }
    {
        let m = self.0;
        let n = shape.blocks;
        CacheBlock((m % (n as u16)) as u8)
    }
}

impl CacheBlock {
    pub fn index(self) -> usize
        ensures { result ≡ self.0 }
    {
        self.0 as usize
    }
}
