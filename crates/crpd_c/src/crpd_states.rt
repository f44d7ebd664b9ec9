// States for C.
ghost use Rattle.std.specs.Prelude.{◌≡◌};
ghost use Rattle.crpd_c.specs.States.{states_status, states_left, states_named};

use c_answers::filling::tell_filling;
use states::states::states;

// States: 0, or the check that fails first; `named` gets the task that it names, or 255.
// A `named` that has not one place gives 1, and then every list is left as it was.
#[unsafe(no_mangle)]
pub extern "C" fn crpd_states(file: &[u8], task: usize, area: &mut [u16], named: &mut [u8]) -> u8
    ensures { (result ≡ states_status file.now task area.old named.old)
        × (area.new ≡ states_left file.now task area.old named.old)
        × (named.new ≡ states_named file.now task area.old named.old) }
{
    if named.len() != 1 {
        return 1;
    }
    tell_filling(named, states(file, task, area))
}
