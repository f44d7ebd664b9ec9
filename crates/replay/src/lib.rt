// Replay: the misses of a run, without and with its preemptions, and the hits that the preemptions cost.
#![tactic(auto)]

mod counts;

ghost use Rattle.std.specs.Prelude.{◌≡◌, Ok};
ghost use Rattle.project.specs.Reading.{head_check};
ghost use Rattle.replay.specs.Replay.{replaying_of};

use counts::run_counts;
use project::answers::Refusal;
use project::head::head;
use reader::{file_shape, read_bodies};
use sheet_checks::check_sheet;

// The misses of the run's own references without and with the preemptions, and the lost hits, which are own references that hit without them and miss
// with them.
#[derive(Clone, Copy, PartialEq, Eq)]
pub struct Counted {
    pub undisturbed: u32,
    pub disturbed: u32,
    pub lost: u32,
}

// The answer of Replay for a file whose first eight bytes passed their checks.
fn replay_bodies(file: &[u8], sheet: &[u16]) -> Result<Counted, Refusal>
    requires { head_check file.now ≡ Ok tt }
    ensures { result ≡ replaying_of file.now sheet.now }
{
    let accepted = read_bodies(file)?;
    check_sheet(file, sheet, usize::from(accepted.t))?;
    Ok(run_counts(file, sheet, file_shape(file)))
}

// Replay: U, D and the lost hits of the run that the sheet says, or the check that fails first. The first bytes are checked here, so that a file that
// they refuse costs no call.
pub fn replay(file: &[u8], sheet: &[u16]) -> Result<Counted, Refusal>
    ensures { result ≡ replaying_of file.now sheet.now }
{
    match head(file) {
        Err(refused) => Err(refused),
        Ok(()) => replay_bodies(file, sheet),
    }
}
