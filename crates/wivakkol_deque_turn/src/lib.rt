// The single turn of DFDeques (N13), as C calls it. As wivakkol_turn it stands in a crate and an archive of its own, so that the compiler, which then sees one call of the turn, puts it into one
// frame. include/wivakkol_deques.h has the prototype.
#![tactic(auto)]

ghost use Rattle.std.specs.Prelude.{◌≡◌};
ghost use Rattle.run_memory.specs.Memory.{answer, reply_row};
ghost use Rattle.run_memory.specs.Blocks.{memory_of};
ghost use Rattle.wivakkol_deques.specs.DequeLent.{lent_deque_turn};

use run_memory::replies::put_reply;
use schedule::Reply;
use stealing::deque_turn_in;

// The row of a reply; not put into the turn, whose frame is 16 bytes smaller so.
#[inline(never)]
fn tell(row: &mut [u64; 5], reply: Reply)
    ensures { row.new ≡ reply_row reply 0 }
{
    put_reply(row, reply, 0);
}

// A turn of worker w with choice c. Every number of the row is written; the last, which AsyncDF has of N7, stays 0.
pub fn wivakkol_deque_turn_on(
    table: &[u8],
    w: u32,
    c: u32,
    bytes: &mut [u8; 1040],
    words: &mut [u16; 6163],
    numbers: &mut [u32; 18],
    sums: &mut [u64; 1027],
    row: &mut [u64; 5],
) -> u32
    ensures { answer result row.new (memory_of bytes.new words.new numbers.new sums.new)
        ≡ lent_deque_turn table.now w c (memory_of bytes.old words.old numbers.old sums.old) }
{
    match deque_turn_in(table, w, c, bytes, words, numbers, sums) {
        Ok(reply) => {
            tell(row, reply);
            0
        }
        Err(number) => {
            *row = [0; 5];
            number
        }
    }
}
