// A run over pairs of bytes, worker and choice, in the lent memory of a run, whatever it holds: the one loop that takes turns for a call by value and for one from C.
ghost use Rattle.std.specs.Prelude.{◌≡◌, ℕ, ◌/◌, length, Err};
ghost use Rattle.run_memory.specs.Blocks.{memory_of};
ghost use Rattle.run_memory.specs.Runs.{stopped_at};
ghost use Rattle.deques.specs.DequeRuns.{pair_at};
ghost use Rattle.stealing.specs.StealingMemory.{deque_drive_in, deque_list_in};

use crate::deque_turn_in;
use run_memory::places::{TURNS, total_at};
use run_memory::runs::{Stop, over, refused, root_ended};
use table::read::byte;

// The turns of a list, a pair of bytes each. By index: the pairs are those of a definition that reads by place.
fn drive(
    table: &[u8],
    order: &[u8],
    bytes: &mut [u8; 1040],
    words: &mut [u16; 6163],
    numbers: &mut [u32; 18],
    sums: &mut [u64; 1027],
) -> Stop
    ensures nonzero { (n : ℕ) → result.finished ≡ Err n → n ≡ 0 → ⊥ }
    ensures run_value { stopped_at result (memory_of bytes.new words.new numbers.new sums.new)
        ≡ deque_drive_in table.now (pair_at order.now) (length order.now / 2) 0 (memory_of bytes.old words.old numbers.old sums.old) }
{
    let limit = order.len() / 2;
    for i in 0..limit {
        if root_ended(&*bytes) {
            return over(true, i);
        }
        let w = byte(order, 2 * i);
        let c = byte(order, 2 * i + 1);
        if let Err(number) = deque_turn_in(table, w as u32, c as u32, bytes, words, numbers, sums) {
            return refused(number, i);
        }
    }
    over(root_ended(&*bytes), limit)
}

// "A run over a list takes two bytes a turn, worker and choice; an odd last byte isn't read."
pub fn deque_list_in(
    table: &[u8],
    order: &[u8],
    bytes: &mut [u8; 1040],
    words: &mut [u16; 6163],
    numbers: &mut [u32; 18],
    sums: &mut [u64; 1027],
) -> Stop
    ensures nonzero { (n : ℕ) → result.finished ≡ Err n → n ≡ 0 → ⊥ }
    ensures run_value { stopped_at result (memory_of bytes.new words.new numbers.new sums.new)
        ≡ deque_list_in table.now order.now (memory_of bytes.old words.old numbers.old sums.old) }
{
    if total_at(&*sums, TURNS) == u64::MAX {
        return refused(32, 0);
    }
    drive(table, order, bytes, words, numbers, sums)
}
