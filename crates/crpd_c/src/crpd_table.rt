// Table for C.
ghost use Rattle.std.specs.Prelude.{◌≡◌, ◌≢◌, length};
ghost use Rattle.crpd_c.specs.Table.{table_status, table_left, table_named};

use c_answers::filling::tell_filling;
use table::table;

// Table: 0, or the check that fails first; `named` gets the task that it names, or 255. What `area` holds afterwards is free.
// A `named` that has not one place gives 1, and then every list is left as it was.
#[unsafe(no_mangle)]
pub extern "C" fn crpd_table(
    file: &[u8],
    area: &mut [u16],
    numbers: &mut [u16],
    named: &mut [u8],
) -> u8
    ensures { (result ≡ table_status file.now area.old numbers.old named.old)
        × (numbers.new ≡ table_left file.now area.old numbers.old named.old)
        × (named.new ≡ table_named file.now area.old numbers.old named.old)
        × (length area.new ≡ length area.old)
        × (length named.old ≢ 1 → area.new ≡ area.old) }
{
    if named.len() != 1 {
        return 1;
    }
    tell_filling(named, table(file, area, numbers))
}
