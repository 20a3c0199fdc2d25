// A record of DFDeques in the four blocks, and read back: AsyncDF's places, and the bottoms in those of the second list.
ghost use Rattle.std.specs.Prelude.{◌≡◌};
ghost use Rattle.run_memory.specs.Blocks.{memory_of};
ghost use Rattle.dfdeques.specs.DequePacking.{deque_memory, deque_record_of};

use deques::DequeRun;
use run_memory::copies::{copy_row, row_out};
use run_memory::packing::{pack, unpack};
use run_memory::places::{FIRST, OVER, UNDER, head_at, put_head};

pub fn pack_deques(
    run: DequeRun,
    parents: &[u16; 1024],
    bytes: &mut [u8; 1040],
    words: &mut [u16; 6163],
    numbers: &mut [u32; 18],
    sums: &mut [u64; 1027],
)
    ensures { memory_of bytes.new words.new numbers.new sums.new ≡ deque_memory run parents.now }
{
    let record = run.run;
    pack(record, parents, bytes, words, numbers, sums);
    let under = run.under;
    let over = run.over;
    copy_row(words, UNDER, &under);
    copy_row(words, OVER, &over);
    put_head(words, FIRST, run.first);
}

// The record with what the turns have moved.
pub fn unpack_deques(
    run: DequeRun,
    bytes: &[u8; 1040],
    words: &[u16; 6163],
    numbers: &[u32; 18],
    sums: &[u64; 1027],
) -> DequeRun
    ensures { result ≡ deque_record_of run (memory_of bytes.now words.now numbers.now sums.now) }
{
    let record = run.run;
    let mut under = run.under;
    let mut over = run.over;
    row_out(words, UNDER, &mut under);
    row_out(words, OVER, &mut over);
    DequeRun {
        run: unpack(record, bytes, words, numbers, sums),
        under,
        over,
        first: head_at(words, FIRST),
    }
}
