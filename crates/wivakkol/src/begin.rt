// Beginning a run in lent memory.
ghost use Rattle.std.specs.Prelude.{◌≡◌, [], ◌∷◌, length, replicate};
ghost use Rattle.array_machine.specs.Arrays.{arrays};
ghost use Rattle.soundness.specs.Tested.{begun_into};
ghost use Rattle.run_memory.specs.Memory.{memory, answer};
ghost use Rattle.wivakkol.specs.Lent.{lent_begin};

use links::NO_THREAD;
use run_memory::lent::workers;
use schedule::statuses::READY;
use soundness::accept_in;

// No worker holds a thread, and nothing is counted.
fn put_nobody(
    holds: &mut [u8; 16],
    threads: &mut [u16; 16],
    quotas: &mut [u32; 16],
    heads: &mut [u16; 3],
    totals: &mut [u64; 3],
)
    ensures holds_after { (holds.new ≡ replicate 16 0) × (threads.new ≡ replicate 16 0) × (quotas.new ≡ replicate 16 0) }
    ensures heads_after { (heads.new ≡ 0 ∷ 0 ∷ 0 ∷ []) × (totals.new ≡ 0 ∷ 0 ∷ 0 ∷ []) }
{
    *holds = [0; 16];
    *threads = [0; 16];
    *quotas = [0; 16];
    *heads = [0, 0, 0];
    *totals = [0, 0, 0];
}

// Every thread has these two neighbours, in the list and in the second list.
fn put_links(
    left: &mut [u16; 1024],
    right: &mut [u16; 1024],
    under: &mut [u16; 1024],
    over: &mut [u16; 1024],
    x: u16,
)
    ensures left_after { (left.new ≡ replicate 1024 x) × (right.new ≡ replicate 1024 x) }
    ensures under_after { (under.new ≡ replicate 1024 x) × (over.new ≡ replicate 1024 x) }
{
    *left = [x; 1024];
    *right = [x; 1024];
    *under = [x; 1024];
    *over = [x; 1024];
}

// Too little room for the filled-out table: C is answered this number.
const NO_ROOM: u32 = 61;

// Begins a run, or gives the check that refuses; the memory is then that of the blank record. Where an alloc is above the quota, the filled-out table is put into `filled`, and is the one that
// runs; the row has its bytes. The working memory, rises and falls, is left cleared.
pub fn wivakkol_begin_on(
    table: &[u8],
    p: u32,
    quota: u32,
    settings: &mut [u32; 2],
    parents: &mut [u16; 1024],
    next: &mut [u16; 1024],
    status: &mut [u8; 1024],
    amounts: &mut [u64; 1024],
    left: &mut [u16; 1024],
    right: &mut [u16; 1024],
    under: &mut [u16; 1024],
    over: &mut [u16; 1024],
    holds: &mut [u8; 16],
    threads: &mut [u16; 16],
    quotas: &mut [u32; 16],
    heads: &mut [u16; 3],
    totals: &mut [u64; 3],
    row: &mut [u64; 2],
    rises: &mut [u64; 1024],
    falls: &mut [u64; 1024],
    filled: &mut [u8],
) -> u32
    ensures totals_after { answer result row.new (memory settings.new parents.new
        (arrays next.new status.new amounts.new left.new right.new under.new over.new)
        holds.new threads.new quotas.new heads.new totals.new)
        ≡ lent_begin table.now p quota (length filled.old) }
    ensures filled_after { filled.new ≡ begun_into table.now p quota filled.old }
    ensures rises_after { (rises.new ≡ replicate 1024 0) × (falls.new ≡ replicate 1024 0) }
{
    *amounts = [0; 1024];
    *status = [0; 1024];
    put_nobody(holds, threads, quotas, heads, totals);
    let room = filled.len();
    let begun = accept_in(
        table,
        workers(p),
        quota,
        filled,
        next,
        parents,
        rises,
        falls,
    );
    match begun {
        Ok(bytes) => {
            *row = [0, bytes as u64];
            if room < bytes {
                *settings = [0, 0];
                put_links(left, right, under, over, 0);
                return NO_ROOM;
            }
            *settings = [p, quota];
            put_links(left, right, under, over, NO_THREAD);
            status[0] = READY;
            0
        }
        Err(x) => {
            *settings = [0, 0];
            put_links(left, right, under, over, 0);
            *row = [x.place as u64, 0];
            x.number as u32
        }
    }
}
