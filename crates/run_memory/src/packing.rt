// A run record's numbers, copied into the four blocks on which turns are taken, and read back. The second list, which is in no record, is filled from the list.
ghost use Rattle.std.specs.Prelude.{◌≡◌};
ghost use Rattle.run_memory.specs.Blocks.{memory_of, words_in, sums_in};
ghost use Rattle.run_memory.specs.Packing.{memory_for, record_of};
ghost use Rattle.run_memory.specs.Code.Laid.{laid_words, laid_sums};

use crate::copies::{
    amounts_out, copy_amounts, copy_row, copy_statuses, copy_workers, row_out, statuses_out,
    workers_out,
};
use crate::places::{
    BUSY, FIRST, HELD, HIGHEST, LEFT, LEFTMOST, NEXT, OVER, PARENTS, QUOTA, RIGHT, TURNS, UNDER,
    WORKERS, head_at, put_head, put_setting, put_total, total_at,
};
use links::fill_actives;
use schedule::Run;

fn pack_words(run: Run, parents: &[u16; 1024], words: &mut [u16; 6163])
    ensures { words_in words.new ≡ laid_words run parents.now (words_in words.old) }
{
    let status = run.status;
    let next = run.next;
    let left = run.left;
    let right = run.right;
    let mut under = [0u16; 1024];
    let mut over = [0u16; 1024];
    let first = fill_actives(&status, &right, run.leftmost, &mut under, &mut over);
    copy_row(words, PARENTS, parents);
    copy_row(words, NEXT, &next);
    copy_row(words, LEFT, &left);
    copy_row(words, RIGHT, &right);
    copy_row(words, UNDER, &under);
    copy_row(words, OVER, &over);
    put_head(words, LEFTMOST, run.leftmost);
    put_head(words, FIRST, first);
    put_head(words, BUSY, run.busy);
}

fn pack_sums(run: Run, sums: &mut [u64; 1027])
    ensures { sums_in sums.new ≡ laid_sums run (sums_in sums.old) }
{
    let amounts = run.amounts;
    copy_amounts(sums, &amounts);
    put_total(sums, HELD, run.held);
    put_total(sums, HIGHEST, run.highest);
    put_total(sums, TURNS, run.turns);
}

pub fn pack(
    run: Run,
    parents: &[u16; 1024],
    bytes: &mut [u8; 1040],
    words: &mut [u16; 6163],
    numbers: &mut [u32; 18],
    sums: &mut [u64; 1027],
)
    ensures { memory_of bytes.new words.new numbers.new sums.new ≡ memory_for run parents.now }
{
    pack_words(run, parents, words);
    pack_sums(run, sums);
    let status = run.status;
    copy_statuses(bytes, &status);
    put_setting(numbers, WORKERS, run.workers as u32);
    put_setting(numbers, QUOTA, run.quota);
    let workers = run.worker;
    copy_workers(bytes, words, numbers, workers);
}

// The record with what the turns have moved.
pub fn unpack(
    run: Run,
    bytes: &[u8; 1040],
    words: &[u16; 6163],
    numbers: &[u32; 18],
    sums: &[u64; 1027],
) -> Run
    ensures { result ≡ record_of run (memory_of bytes.now words.now numbers.now sums.now) }
{
    let mut next = run.next;
    let mut left = run.left;
    let mut right = run.right;
    let mut status = run.status;
    let mut amounts = run.amounts;
    row_out(words, NEXT, &mut next);
    row_out(words, LEFT, &mut left);
    row_out(words, RIGHT, &mut right);
    statuses_out(bytes, &mut status);
    amounts_out(sums, &mut amounts);
    let worker = workers_out(bytes, words, numbers);
    let table = run.table;
    Run {
        table,
        length: run.length,
        workers: run.workers,
        quota: run.quota,
        next,
        status,
        amounts,
        left,
        right,
        leftmost: head_at(words, LEFTMOST),
        worker,
        busy: head_at(words, BUSY),
        held: total_at(sums, HELD),
        highest: total_at(sums, HIGHEST),
        turns: total_at(sums, TURNS),
    }
}
