// A run's line of the wall chart, from the memory lent.
ghost use Rattle.std.specs.Prelude.{◌≡◌, List, ℕ, replicate};
ghost use Rattle.array_machine.specs.Arrays.{arrays};
ghost use Rattle.run_memory.specs.Memory.{memory};
ghost use Rattle.wivakkol.specs.Opened.{line_fault, line_after};

use crate::open::standing_lent;
use crate::standing::Standing;
use chart::{MOST_TURNS, put_line};
use run_memory::lent::{workers, workers_at};

// The line of the record that stands in the memory: 32 where no sound record and not the blank one stands there, then 43 where a line has no room for the turns taken; where it is refused, the lent line
// is as it was. The working memory is left cleared.
pub fn wivakkol_chart_on(
    table: &[u8],
    settings: &[u32; 2],
    next: &[u16; 1024],
    status: &[u8; 1024],
    amounts: &[u64; 1024],
    left: &[u16; 1024],
    right: &[u16; 1024],
    holds: &[u8; 16],
    threads: &[u16; 16],
    quotas: &[u32; 16],
    heads: &[u16; 3],
    totals: &[u64; 3],
    line: &mut [u8; 85],
    rises: &mut [u64; 1024],
    falls: &mut [u64; 1024],
    forks: &mut [u16; 1024],
    seen: &mut [u16; 1024],
    list: &mut [u16; 1024],
) -> u32
    ensures by_index { (parents under over : List ℕ) → result ≡ line_fault table.now (memory settings.now parents
        (arrays next.now status.now amounts.now left.now right.now under over)
        holds.now threads.now quotas.now heads.now totals.now) }
    ensures by_index_2 { (parents under over : List ℕ) → line.new ≡ line_after result (memory settings.now parents
        (arrays next.now status.now amounts.now left.now right.now under over)
        holds.now threads.now quotas.now heads.now totals.now) line.old }
    ensures rises_after { (rises.new ≡ replicate 1024 0) × (falls.new ≡ replicate 1024 0) }
    ensures forks_after { (forks.new ≡ replicate 1024 0) × (seen.new ≡ replicate 1024 0) × (list.new ≡ replicate 1024 0) }
{
    let found = standing_lent(
        table, settings, next, status, amounts, left, right, holds, threads, quotas, heads, totals,
        rises, falls, forks, seen, list,
    );
    *seen = [0; 1024];
    if found == Standing::Neither {
        return 32;
    }
    if MOST_TURNS < totals[2] {
        return 43;
    }
    let records = workers_at(holds, threads, quotas);
    put_line(line, 0, totals[2], workers(settings[0]), records, totals[0]);
    0
}
