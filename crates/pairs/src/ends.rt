// The end rows of the tasks that meet the points of another.
ghost use Rattle.std.specs.Prelude.{◌≡◌, ◌<◌};
ghost use Rattle.rows.specs.Rows.{part_of};
ghost use Rattle.pairs.specs.Ends.{EndRows, one_of};

// The end rows of each of the first `tasks` tasks, in rows of w numbers: room for 32 of them for each of 8 tasks, and after these for each task the one row
// for its end rows. `counts` tells how many end rows a task has, and `mixed` the cache blocks where they hold more than one memory block.
#[derive(Clone, Copy)]
pub struct Ends<'a> {
    pub w: usize,
    pub rows: &'a [u16],
    pub counts: &'a [usize],
    pub mixed: &'a [u32],
    pub tasks: usize,
    ghost are: { EndRows w rows.now counts.now mixed.now tasks },
}

impl<'a> Ends<'a> {
    // The room for the end rows of task j.
    pub fn room_of(&self, j: usize) -> &'a [u16]
        requires { j < self.now.tasks }
        ensures { result.now ≡ part_of self.now.w self.now.rows.now j }
    {
        let part = 32 * self.w;
        let at = part * j;
        &self.rows[at..at + part]
    }

    // The one row for the end rows of task j.
    pub fn one_of(&self, j: usize) -> &'a [u16]
        requires { j < self.now.tasks }
        ensures { result.now ≡ one_of self.now.w self.now.rows.now j }
    {
        let from = 8 * (32 * self.w) + self.w * j;
        &self.rows[from..from + self.w]
    }
}
