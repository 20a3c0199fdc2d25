// What the memory of a run of DFDeques stays within, before it is begun.
ghost use Rattle.std.specs.Prelude.{◌≡◌, length, replicate};
ghost use Rattle.deque_limit.specs.ChoiceLimit.{choice_limits_in, choice_limits_into};
ghost use Rattle.wivakkol_deques.specs.ChoiceRows.{choice_number, choice_row};

use deque_limit::choice_limit_in;
use run_memory::lent::workers;

// The limit of the table that runs for choices below c and for choices 0, or the check that refuses; 61 where the room for the filled-out table is too little. The working memory may hold
// anything, and is left cleared.
pub fn wivakkol_deque_limit_on(
    table: &[u8],
    p: u32,
    quota: u32,
    c: u32,
    row: &mut [u64; 3],
    rises: &mut [u64; 1024],
    falls: &mut [u64; 1024],
    serials: &mut [u64; 1024],
    depths: &mut [u16; 1024],
    peaks: &mut [u64; 17408],
    rows: &mut [u64; 17408],
    filled: &mut [u8],
) -> u32
    ensures value { result ≡ choice_number (choice_limits_in table.now p quota c (length filled.old)) }
    ensures row_after { row.new ≡ choice_row (choice_limits_in table.now p quota c (length filled.old)) }
    ensures filled_after { filled.new ≡ choice_limits_into table.now p quota c filled.old }
    ensures rises_after { (rises.new ≡ replicate 1024 0) × (falls.new ≡ replicate 1024 0) × (serials.new ≡ replicate 1024 0) × (depths.new ≡ replicate 1024 0)
        × (peaks.new ≡ replicate 17408 0) × (rows.new ≡ replicate 17408 0) }
{
    let w = workers(p);
    let answer = choice_limit_in(
        table, w, quota, c, filled, rises, falls, serials, depths, peaks, rows,
    );
    match answer {
        Ok(x) => {
            *row = [0, x.memory, x.near];
            0
        }
        Err(r) => {
            *row = [r.place as u64, 0, 0];
            r.number as u32
        }
    }
}
