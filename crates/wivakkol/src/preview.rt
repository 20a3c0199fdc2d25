// A turn on a run that stands in lent memory, shown before it is taken (N4). All but the row is read alone: "the record itself is unaltered".
ghost use Rattle.std.specs.Prelude.{◌≡◌, [], ◌∷◌, ◌++◌};
ghost use Rattle.run_memory.specs.Memory.{reply_row};
ghost use Rattle.run_memory.specs.Blocks.{memory_of};
ghost use Rattle.wivakkol.specs.Preview.{preview, lent_preview};

use run_memory::preview::{Foreseen, preview_in};
use run_memory::replies::put_reply;

// What the turn would say, and memory held, its highest and the quota left after it.
fn put_preview(row: &mut [u64; 8], x: Foreseen)
    ensures { row.new ≡ reply_row x.reply x.passed ++ (x.held ∷ x.highest ∷ x.quota ∷ []) }
{
    let mut said: [u64; 5] = [0; 5];
    put_reply(&mut said, x.reply, x.passed);
    *row = [
        said[0],
        said[1],
        said[2],
        said[3],
        said[4],
        x.held,
        x.highest,
        x.quota as u64,
    ];
}

// The turn of worker w, or what refuses it.
pub fn wivakkol_preview_on(
    table: &[u8],
    w: u32,
    bytes: &[u8; 1040],
    words: &[u16; 6163],
    numbers: &[u32; 18],
    sums: &[u64; 1027],
    row: &mut [u64; 8],
) -> u32
    ensures { preview result row.new ≡ lent_preview table.now w (memory_of bytes.now words.now numbers.now sums.now) }
{
    match preview_in(table, w, bytes, words, numbers, sums) {
        Ok(x) => {
            put_preview(row, x);
            0
        }
        Err(number) => {
            *row = [0; 8];
            number
        }
    }
}
