// Runs over a list of workers and in rounds, from C: the run is run_memory's, and where it stopped goes into the lent row.
ghost use Rattle.std.specs.Prelude.{◌≡◌};
ghost use Rattle.run_memory.specs.Memory.{answer};
ghost use Rattle.run_memory.specs.Blocks.{memory_of};
ghost use Rattle.wivakkol.specs.Lent.{lent_list, lent_rounds};

use run_memory::replies::put_run;
use run_memory::runs::{list_in, rounds_in};

// A run over a list of workers.
pub fn wivakkol_list_on(
    table: &[u8],
    order: &[u8],
    bytes: &mut [u8; 1040],
    words: &mut [u16; 6163],
    numbers: &mut [u32; 18],
    sums: &mut [u64; 1027],
    row: &mut [u64; 3],
) -> u32
    ensures { answer result row.new (memory_of bytes.new words.new numbers.new sums.new)
        ≡ lent_list table.now order.now (memory_of bytes.old words.old numbers.old sums.old) }
{
    let stop = list_in(table, order, bytes, words, numbers, sums);
    put_run(row, stop)
}

// A run in rounds, of at most `limit` turns.
pub fn wivakkol_rounds_on(
    table: &[u8],
    limit: u32,
    bytes: &mut [u8; 1040],
    words: &mut [u16; 6163],
    numbers: &mut [u32; 18],
    sums: &mut [u64; 1027],
    row: &mut [u64; 3],
) -> u32
    ensures { answer result row.new (memory_of bytes.new words.new numbers.new sums.new)
        ≡ lent_rounds table.now limit (memory_of bytes.old words.old numbers.old sums.old) }
{
    let stop = rounds_in(table, limit, bytes, words, numbers, sums);
    put_run(row, stop)
}
