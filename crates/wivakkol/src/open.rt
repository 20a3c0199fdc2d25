// Opening a run that stands in lent memory: check 32, once, and what speeds its turns up.
ghost use Rattle.std.specs.Prelude.{◌≡◌, List, ℕ, replicate};
ghost use Rattle.table.specs.Format.{table_of};
ghost use Rattle.soundness.specs.Tested.{parents_if};
ghost use Rattle.array_machine.specs.Arrays.{arrays};
ghost use Rattle.run_memory.specs.Memory.{memory, answer};
ghost use Rattle.wivakkol.specs.Opened.{lent_open};
ghost use Rattle.wivakkol.specs.Code.Standing.{standing, is_sound};

use crate::standing::{Standing, standing_of};
use links::fill_actives;
use run_memory::lent::{truths_right, workers, workers_at};

// What stands in the memory. Each thread's parent is then in `seen` where that is a sound record, else 0; the other working memory is left cleared.
pub(crate) fn standing_lent(
    table: &[u8],
    settings: &[u32; 2],
    next: &[u16; 1024],
    status: &[u8; 1024],
    amounts: &[u64; 1024],
    left: &[u16; 1024],
    right: &[u16; 1024],
    holds: &[u8; 16],
    threads: &[u16; 16],
    quotas: &[u32; 16],
    heads: &[u16; 3],
    totals: &[u64; 3],
    rises: &mut [u64; 1024],
    falls: &mut [u64; 1024],
    forks: &mut [u16; 1024],
    seen: &mut [u16; 1024],
    list: &mut [u16; 1024],
) -> Standing
    ensures by_index { (parents under over : List ℕ) → result ≡ standing table.now (memory settings.now parents
        (arrays next.now status.now amounts.now left.now right.now under over)
        holds.now threads.now quotas.now heads.now totals.now) }
    ensures seen_after { seen.new ≡ parents_if (is_sound result) (table_of table.now) }
    ensures rises_after { (rises.new ≡ replicate 1024 0) × (falls.new ≡ replicate 1024 0) }
    ensures forks_after { (forks.new ≡ replicate 1024 0) × (list.new ≡ replicate 1024 0) }
{
    let records = workers_at(holds, threads, quotas);
    standing_of(
        table,
        workers(settings[0]),
        settings[1],
        next,
        status,
        amounts,
        left,
        right,
        heads[0],
        truths_right(holds),
        records,
        heads[2],
        totals[0],
        totals[1],
        totals[2],
        rises,
        falls,
        forks,
        seen,
        list,
    )
}

// Opens a run: 32 where no sound record and not the blank one stands in the memory, which is then as it was; else each thread's parent and the second list are filled. The working memory is
// left cleared.
pub fn wivakkol_open_on(
    table: &[u8],
    settings: &[u32; 2],
    parents: &mut [u16; 1024],
    next: &[u16; 1024],
    status: &[u8; 1024],
    amounts: &[u64; 1024],
    left: &[u16; 1024],
    right: &[u16; 1024],
    under: &mut [u16; 1024],
    over: &mut [u16; 1024],
    holds: &[u8; 16],
    threads: &[u16; 16],
    quotas: &[u32; 16],
    heads: &mut [u16; 3],
    totals: &[u64; 3],
    row: &mut [u64; 1],
    rises: &mut [u64; 1024],
    falls: &mut [u64; 1024],
    forks: &mut [u16; 1024],
    seen: &mut [u16; 1024],
    list: &mut [u16; 1024],
) -> u32
    ensures totals_after { answer result row.new (memory settings.now parents.new
        (arrays next.now status.now amounts.now left.now right.now under.new over.new)
        holds.now threads.now quotas.now heads.new totals.now)
        ≡ lent_open table.now (memory settings.now parents.old
        (arrays next.now status.now amounts.now left.now right.now under.old over.old)
        holds.now threads.now quotas.now heads.old totals.now) }
    ensures rises_after { (rises.new ≡ replicate 1024 0) × (falls.new ≡ replicate 1024 0) }
    ensures forks_after { (forks.new ≡ replicate 1024 0) × (seen.new ≡ replicate 1024 0) × (list.new ≡ replicate 1024 0) }
{
    *row = [0];
    let leftmost = heads[0];
    let busy = heads[2];
    let found = standing_lent(
        table, settings, next, status, amounts, left, right, holds, threads, quotas, &*heads,
        totals, rises, falls, forks, seen, list,
    );
    match found {
        Standing::Sound => {
            *parents = *seen;
            *seen = [0; 1024];
            let first = fill_actives(status, right, leftmost, under, over);
            *heads = [leftmost, first, busy];
            0
        }
        Standing::Blank => {
            *parents = [0; 1024];
            *under = [0; 1024];
            *over = [0; 1024];
            *heads = [leftmost, 0, busy];
            0
        }
        Standing::Neither => 32,
    }
}
