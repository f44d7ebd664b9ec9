// Response times for C.
ghost use Rattle.std.specs.Prelude.{◌≡◌, ◌≢◌, length};
ghost use Rattle.crpd_c.specs.ResponseTimes.{response_status, response_left, response_named};

use c_answers::filling::tell_filling;
use response::Record;
use responses::response_times;

// Response times: 0, or the check that fails first; `named` gets the task that it names, or 255. What `area` holds afterwards is free.
// A `named` that has not one place gives 1, and then every list is left as it was.
#[unsafe(no_mangle)]
pub extern "C" fn crpd_response_times(
    file: &[u8],
    area: &mut [u16],
    list: &mut [Record],
    penalty: u32,
    named: &mut [u8],
) -> u8
    ensures { (result ≡ response_status file.now area.old list.old penalty named.old)
        × (list.new ≡ response_left file.now area.old list.old penalty named.old)
        × (named.new ≡ response_named file.now area.old list.old penalty named.old)
        × (length area.new ≡ length area.old)
        × (length named.old ≢ 1 → area.new ≡ area.old) }
{
    if named.len() != 1 {
        return 1;
    }
    tell_filling(named, response_times(file, area, list, penalty))
}
