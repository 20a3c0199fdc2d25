// Paced runs over a list of workers and in rounds, from C, whatever the memory holds: a run stops at the first turn that the pace holds back as at any refusal (specs/PacedRuns).
ghost use Rattle.std.specs.Prelude.{◌≡◌, ℕ, false, ◌&&◌, eqb, Err};
ghost use Rattle.run_memory.specs.Memory.{answer};
ghost use Rattle.run_memory.specs.Blocks.{numbers_in, memory_of};
ghost use Rattle.run_memory.specs.Runs.{stopped_at};
ghost use Rattle.wivakkol_pace.specs.Paced.{kept};
ghost use Rattle.wivakkol_pace.specs.PacedRuns.{paced_stop, paced_worker, paced_drive, paced_run, paced_list, paced_rounds};

use crate::paced_in;
use pace::next;
use run_memory::places::{TURNS, WORKERS, setting_at, total_at};
use run_memory::replies::put_run;
use run_memory::runs::{Stop, ends_root, over, refused, root_ended};
use schedule::Reply;
use table::read::byte;

// The worker whose turn comes after i turns: from the order, or in rounds the one after that of the latest turn.
// `rounds` and no closure that picks the worker: each would make a loop of its own, with the turn's code in it, and the archive has that code once.
fn worker_of(order: &[u8], rounds: bool, pace: &[u32; 260], i: usize) -> u32
    ensures { result ≡ paced_worker order.now rounds i pace.now }
{
    if rounds {
        next(pace)
    } else {
        byte(order, i) as u32
    }
}

// A loop beside run_memory's: with the turn as a closure over the lent blocks and the pace, one contract of both would be longer than both loops.
// At most `limit` turns. Each reply is taken apart, and the thread and the action that it names say whether the root ended.
fn drive(
    table: &[u8],
    order: &[u8],
    rounds: bool,
    limit: usize,
    bytes: &mut [u8; 1040],
    words: &mut [u16; 6163],
    numbers: &mut [u32; 18],
    sums: &mut [u64; 1027],
    pace: &mut [u32; 260],
) -> Stop
    ensures nonzero { (n : ℕ) → result.finished ≡ Err n → n ≡ 0 → ⊥ }
    ensures run_value { paced_stop (stopped_at result (memory_of bytes.new words.new numbers.new sums.new)) pace.new
        ≡ paced_drive table.now (paced_worker order.now rounds) limit 0 (memory_of bytes.old words.old numbers.old sums.old) pace.old }
{
    if root_ended(&*bytes) {
        return over(true, 0);
    }
    for i in 0..limit {
        let w = worker_of(order, rounds, &*pace, i);
        let taken = match paced_in(table, w, false, sums, pace, bytes, words, numbers) {
            Ok(taken) => taken,
            Err(number) => return refused(number, i),
        };
        let Reply::Done { thread, action } = taken.reply else {
            continue;
        };
        if ends_root(table, thread, action) {
            return over(true, i + 1);
        }
    }
    over(false, limit)
}

// In rounds a run with no worker is refused.
fn nobody(rounds: bool, numbers: &[u32; 18]) -> bool
    ensures { result ≡ rounds && eqb (numbers_in numbers.now).workers 0 }
{
    rounds && setting_at(numbers, WORKERS) == 0
}

// 32 first where no turn can be counted, and in rounds 30 where there is no worker; then the run, over the order or in rounds: what a call from C and one by value make.
pub fn run_in(
    table: &[u8],
    order: &[u8],
    rounds: bool,
    limit: usize,
    bytes: &mut [u8; 1040],
    words: &mut [u16; 6163],
    numbers: &mut [u32; 18],
    sums: &mut [u64; 1027],
    pace: &mut [u32; 260],
) -> Stop
    ensures nonzero { (n : ℕ) → result.finished ≡ Err n → n ≡ 0 → ⊥ }
    ensures run_value { paced_stop (stopped_at result (memory_of bytes.new words.new numbers.new sums.new)) pace.new
        ≡ paced_run table.now (paced_worker order.now rounds) rounds limit (memory_of bytes.old words.old numbers.old sums.old) pace.old }
{
    if total_at(&*sums, TURNS) == u64::MAX {
        return refused(32, 0);
    }
    if nobody(rounds, &*numbers) {
        return refused(30, 0);
    }
    drive(
        table, order, rounds, limit, bytes, words, numbers, sums, pace,
    )
}

// A paced run over a list of workers.
pub fn wivakkol_paced_list_on(
    table: &[u8],
    order: &[u8],
    bytes: &mut [u8; 1040],
    words: &mut [u16; 6163],
    numbers: &mut [u32; 18],
    sums: &mut [u64; 1027],
    pace: &mut [u32; 260],
    row: &mut [u64; 3],
) -> u32
    ensures { kept (answer result row.new (memory_of bytes.new words.new numbers.new sums.new)) pace.new
        ≡ paced_list table.now order.now (memory_of bytes.old words.old numbers.old sums.old) pace.old }
{
    let stop = run_in(
        table,
        order,
        false,
        order.len(),
        bytes,
        words,
        numbers,
        sums,
        pace,
    );
    put_run(row, stop)
}

// A paced run in rounds, of at most `limit` turns, that goes on after the worker of the latest turn.
pub fn wivakkol_paced_rounds_on(
    table: &[u8],
    limit: u32,
    bytes: &mut [u8; 1040],
    words: &mut [u16; 6163],
    numbers: &mut [u32; 18],
    sums: &mut [u64; 1027],
    pace: &mut [u32; 260],
    row: &mut [u64; 3],
) -> u32
    ensures { kept (answer result row.new (memory_of bytes.new words.new numbers.new sums.new)) pace.new
        ≡ paced_rounds table.now limit (memory_of bytes.old words.old numbers.old sums.old) pace.old }
{
    let stop = run_in(
        table,
        b"",
        true,
        limit as usize,
        bytes,
        words,
        numbers,
        sums,
        pace,
    );
    put_run(row, stop)
}
