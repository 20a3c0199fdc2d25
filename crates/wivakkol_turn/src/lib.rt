// The single turn, as C calls it: on numbers and lent arrays alone, answering any input whatever. It stands in a crate and an archive of its own so that the compiler, which then sees one
// call of the turn, puts the whole turn into one frame. include/wivakkol.h has the prototype.
#![tactic(auto)]

pub mod actions;

ghost use Rattle.std.specs.Prelude.{◌≡◌};
ghost use Rattle.run_memory.specs.Memory.{answer, lent_turn};
ghost use Rattle.run_memory.specs.Blocks.{memory_of};

use run_memory::replies::put_reply;
use run_memory::turn_in;

// A turn of worker w, with how many threads stood left of one that it took. Every number of the row is written.
pub fn wivakkol_turn_on(
    table: &[u8],
    w: u32,
    bytes: &mut [u8; 1040],
    words: &mut [u16; 6163],
    numbers: &mut [u32; 18],
    sums: &mut [u64; 1027],
    row: &mut [u64; 5],
) -> u32
    ensures { answer result row.new (memory_of bytes.new words.new numbers.new sums.new)
        ≡ lent_turn table.now w (memory_of bytes.old words.old numbers.old sums.old) }
{
    match turn_in(table, w, true, bytes, words, numbers, sums) {
        Ok(taken) => {
            put_reply(row, taken.reply, taken.passed);
            0
        }
        Err(number) => {
            *row = [0; 5];
            number
        }
    }
}
