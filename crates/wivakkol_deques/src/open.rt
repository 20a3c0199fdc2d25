// Opening a run of DFDeques that stands in lent memory: check 32, once.
ghost use Rattle.std.specs.Prelude.{◌≡◌, replicate};
ghost use Rattle.array_machine.specs.Arrays.{arrays};
ghost use Rattle.run_memory.specs.Memory.{memory, answer};
ghost use Rattle.wivakkol_deques.specs.DequeLent.{lent_deque_open};

use dequetest::deque_open_in;
use run_memory::lent::{truths_right, workers, workers_at};

// Opens a run: 32 where no sound record of DFDeques and not the blank one stands in the memory, which is then as it was; else each thread's parent is filled. Both lists of links are part of
// the record. The working memory is left cleared.
pub fn wivakkol_deque_open_on(
    table: &[u8],
    settings: &[u32; 2],
    parents: &mut [u16; 1024],
    next: &[u16; 1024],
    status: &[u8; 1024],
    amounts: &[u64; 1024],
    left: &[u16; 1024],
    right: &[u16; 1024],
    under: &[u16; 1024],
    over: &[u16; 1024],
    holds: &[u8; 16],
    threads: &[u16; 16],
    quotas: &[u32; 16],
    heads: &[u16; 3],
    totals: &[u64; 3],
    row: &mut [u64; 1],
    rises: &mut [u64; 1024],
    falls: &mut [u64; 1024],
    forks: &mut [u16; 1024],
    seen: &mut [u16; 1024],
    list: &mut [u16; 1024],
) -> u32
    ensures totals_after { answer result row.new (memory settings.now parents.new
        (arrays next.now status.now amounts.now left.now right.now under.now over.now)
        holds.now threads.now quotas.now heads.now totals.now)
        ≡ lent_deque_open table.now (memory settings.now parents.old
        (arrays next.now status.now amounts.now left.now right.now under.now over.now)
        holds.now threads.now quotas.now heads.now totals.now) }
    ensures rises_after { (rises.new ≡ replicate 1024 0) × (falls.new ≡ replicate 1024 0) }
    ensures forks_after { (forks.new ≡ replicate 1024 0) × (seen.new ≡ replicate 1024 0) × (list.new ≡ replicate 1024 0) }
{
    *row = [0];
    let records = workers_at(holds, threads, quotas);
    let written = truths_right(holds);
    deque_open_in(
        table,
        workers(settings[0]),
        settings[1],
        parents,
        next,
        status,
        amounts,
        left,
        right,
        heads[0],
        under,
        over,
        heads[1],
        written,
        records,
        heads[2],
        totals[0],
        totals[1],
        totals[2],
        rises,
        falls,
        forks,
        seen,
        list,
    )
}
