// The single turn of DFDeques (N13), as C links it. Each calls crate wivakkol_deque_turn's function of its name and states its clauses again: a library for other crates exports nothing to C.
#![tactic(auto)]

ghost use Rattle.std.specs.Prelude.{◌≡◌};
ghost use Rattle.run_memory.specs.Memory.{answer};
ghost use Rattle.run_memory.specs.Blocks.{memory_of};
ghost use Rattle.wivakkol_deques.specs.DequeLent.{lent_deque_turn};

#[unsafe(no_mangle)]
pub extern "C" fn wivakkol_deque_turn_on(
    table: &[u8],
    w: u32,
    c: u32,
    bytes: &mut [u8; 1040],
    words: &mut [u16; 6163],
    numbers: &mut [u32; 18],
    sums: &mut [u64; 1027],
    row: &mut [u64; 5],
) -> u32
    ensures { answer result row.new (memory_of bytes.new words.new numbers.new sums.new)
        ≡ lent_deque_turn table.now w c (memory_of bytes.old words.old numbers.old sums.old) }
{
    wivakkol_deque_turn::wivakkol_deque_turn_on(table, w, c, bytes, words, numbers, sums, row)
}
