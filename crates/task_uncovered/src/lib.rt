// The rows of a task for Table: all of them where no block has more than 32 states, else uncovered ones.
#![tactic(auto)]

pub mod keep;

ghost use Rattle.std.specs.Prelude.{◌≡◌, true, length};
ghost use Rattle.cache.specs.Shape.{shaped, Holds};
ghost use Rattle.body.specs.Decode.{decode, task_of};
ghost use Rattle.body.specs.Walk.{kept_of};
ghost use Rattle.rows.specs.Rows.{Width, area_length};
ghost use Rattle.task_uncovered.specs.Standing.{AreaStands};

use cache::blocks::CacheShape;
use graphs::task_rows::task_kinds;
use keep::KeptRows;

// Rows that stand for the reaching and the live states of each block of a body, in a work area; true where Table gives 11. Left open are which rows stand
// for the states and their order, what stands after them, the area from the counts on, and after true the whole area and all counts.
pub fn standing_rows(
    body: &[u8],
    shape: CacheShape,
    w: usize,
    area: &mut [u16],
    reached: &mut [usize],
    lived: &mut [usize],
) -> bool
    requires { (kept_of (decode body.now) ≡ true) × Holds w shape × Width w × (length area.old ≡ area_length w) × (length reached.old ≡ 24) × (length lived.old ≡ 24) }
    ensures { AreaStands (shaped w shape) (task_of (decode body.now)) area.new reached.new lived.new result }
{
    let kept = task_kinds::<KeptRows>(body, shape, w, area, reached, lived);
    kept.is_err()
}
