// Costliest run for C.
ghost use Rattle.c_answers.specs.Told.{places};
ghost use Rattle.crpd_c.specs.CostliestRun.{RunLeft};

use c_answers::writing::tell_writing;
use costliest::costliest_run;

// Costliest run: 0, or the check that fails first; `answer` gets the task that it names (255 if none) and the sheet's length (0 after a
// refusal). Which run is written and what the areas hold afterwards is left open.
// An `answer` that has not two places gives 1, and then every list is left as it was.
#[unsafe(no_mangle)]
pub extern "C" fn crpd_costliest_run(
    file: &[u8],
    i: usize,
    j: usize,
    first: &mut [u16],
    second: &mut [u16],
    sheet: &mut [u16],
    answer: &mut [usize],
) -> u8
    ensures { RunLeft (places 2 answer.old) file.now i j first.old second.old sheet.old answer.old
        result first.new second.new sheet.new answer.new }
{
    if answer.len() != 2 {
        return 1;
    }
    tell_writing(answer, costliest_run(file, i, j, first, second, sheet))
}
