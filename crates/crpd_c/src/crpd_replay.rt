// Replay for C.
ghost use Rattle.std.specs.Prelude.{◌≡◌};
ghost use Rattle.crpd_c.specs.Replay.{replay_status, replay_left};

use c_answers::replaying::tell_replaying;
use replay::replay;

// Replay: 0, or the check that fails first; `answer` gets the task that it names (255 if none), U, D and the lost hits (0 each after a refusal).
// An `answer` that has not four places gives 1 and is left as it was.
#[unsafe(no_mangle)]
pub extern "C" fn crpd_replay(file: &[u8], sheet: &[u16], answer: &mut [u32]) -> u8
    ensures { (result ≡ replay_status file.now sheet.now answer.old)
        × (answer.new ≡ replay_left file.now sheet.now answer.old) }
{
    tell_replaying(answer, replay(file, sheet))
}
