// The rows that a graph of blocks keeps: all of them where no block has more than 32, else the uncovered ones, by rounds.
ghost use Rattle.std.specs.Prelude.{◌*◌, length};
ghost use Rattle.std.specs.Result.{is_err};
ghost use Rattle.gather.specs.Gathered.{GraphInput, graph_meant};
ghost use Rattle.uncovered.specs.Taken.{RoundsIn};
ghost use Rattle.task_uncovered.specs.Standing.{Kept, kept_sizes};

use gather::gather::{BlockGraph, Full, gather};
use graphs::task_rows::Gathers;
use uncovered::rounds::rounds;

// The uncovered rows of each block, by rounds, with room for the rows of the next round. Left open is what `rounds` leaves open. This function has the
// room, so that memory is taken for it only where rounds are needed.
fn in_rounds(graph: BlockGraph, rows: &mut [u16], counts: &mut [usize]) -> Result<(), Full>
    requires { GraphInput graph rows.old counts.old }
    ensures { RoundsIn (graph_meant graph.entry)
        rows.new counts.new (is_err result) }
{
    let kind = 24 * (32 * graph.row.len());
    let mut room = [0u16; 24576];
    rounds(graph, rows, counts, &mut room[0..kind])
}

// All rows of each block are kept, or the uncovered ones where some block has more than 32 rows; an error where in some round a block has more than 32
// uncovered ones. Left open are the order of a block's rows and what stands after them, and after an error all rows and counts.
pub struct KeptRows;

impl Gathers for KeptRows {
    ghost leaves = { Kept };

    ghost sizes = { kept_sizes };

    fn along(graph: BlockGraph, rows: &mut [u16], counts: &mut [usize]) -> Result<(), Full> {
        if gather(graph, rows, counts).is_err() {
            return in_rounds(graph, rows, counts);
        }
        Ok(())
    }
}
