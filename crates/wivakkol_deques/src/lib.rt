// The calls of DFDeques (N13) that C links, but for the turn, which has a crate of its own: on numbers and lent memory alone, each answering any input whatever. Beginning is AsyncDF's,
// `wivakkol_begin`: the memory of the start is the same for both kinds of run. They stand in an archive of their own. include/wivakkol_deques.h has the prototypes.
#![tactic(auto)]

ghost use Rattle.std.specs.Prelude.{◌≡◌};
ghost use Rattle.run_memory.specs.Memory.{answer};
ghost use Rattle.run_memory.specs.Blocks.{memory_of};
ghost use Rattle.wivakkol_deques.specs.DequeLent.{lent_deque_list};

use run_memory::replies::put_run;
use stealing::runs::deque_list_in;

pub mod limit;
pub mod open;

// A run over a list, two bytes a turn: worker and choice.
pub fn wivakkol_deque_list_on(
    table: &[u8],
    order: &[u8],
    bytes: &mut [u8; 1040],
    words: &mut [u16; 6163],
    numbers: &mut [u32; 18],
    sums: &mut [u64; 1027],
    row: &mut [u64; 3],
) -> u32
    ensures { answer result row.new (memory_of bytes.new words.new numbers.new sums.new)
        ≡ lent_deque_list table.now order.now (memory_of bytes.old words.old numbers.old sums.old) }
{
    let stop = deque_list_in(table, order, bytes, words, numbers, sums);
    put_run(row, stop)
}
