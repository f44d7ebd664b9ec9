// The live rows of a block, side by side.
ghost use Rattle.pairs.specs.Ends.{LiveLanes};

// The first `count` of 32 live rows of w numbers, which lie side by side.
#[derive(Clone, Copy)]
pub struct Lives<'a> {
    pub w: usize,
    pub lanes: &'a [u16],
    pub count: usize,
    ghost are: { LiveLanes w lanes.now count },
}
