// Opening a run of DFDeques that stands in lent memory: check 32, once. Both lists of links are part of the record, so only the parents are filled beside it.
ghost use Rattle.std.specs.Prelude.{◌≡◌, ◌&&◌, replicate};
ghost use Rattle.table.specs.Format.{table_of};
ghost use Rattle.dequetest.specs.DequeTested.{deque_sound_on, deque_blank_on, open_number, open_parents};

use crate::blank::deque_blank_in;
use crate::sound::deque_test_in;
use schedule::Worker;

fn both(a: bool, b: bool) -> bool
    ensures { result ≡ (a && b) }
{
    a && b
}

// `written`: each worker's truth value is written as 0 or 1. The parents are as they were where 32 applies; the working memory is left cleared.
pub fn deque_open_in(
    table: &[u8],
    p: u8,
    quota: u32,
    parents: &mut [u16; 1024],
    next: &[u16; 1024],
    status: &[u8; 1024],
    amounts: &[u64; 1024],
    left: &[u16; 1024],
    right: &[u16; 1024],
    leftmost: u16,
    under: &[u16; 1024],
    over: &[u16; 1024],
    first: u16,
    written: bool,
    workers: [Worker; 16],
    busy: u16,
    held: u64,
    highest: u64,
    turns: u64,
    rises: &mut [u64; 1024],
    falls: &mut [u64; 1024],
    forks: &mut [u16; 1024],
    seen: &mut [u16; 1024],
    row: &mut [u16; 1024],
) -> u32
    ensures value { result ≡ open_number (written && deque_sound_on table.now p quota next.now status.now amounts.now
        (record { left = left.now; right = right.now; head = leftmost })
        (record { left = under.now; right = over.now; head = first }) workers busy held highest turns)
        (deque_blank_on p quota next.now status.now amounts.now
        (record { left = left.now; right = right.now; head = leftmost })
        (record { left = under.now; right = over.now; head = first }) workers busy held highest turns) }
    ensures parents_after { parents.new ≡ open_parents (written && deque_sound_on table.now p quota next.now status.now amounts.now
        (record { left = left.now; right = right.now; head = leftmost })
        (record { left = under.now; right = over.now; head = first }) workers busy held highest turns)
        (deque_blank_on p quota next.now status.now amounts.now
        (record { left = left.now; right = right.now; head = leftmost })
        (record { left = under.now; right = over.now; head = first }) workers busy held highest turns) (table_of table.now) parents.old }
    ensures rises_after { (rises.new ≡ replicate 1024 0) × (falls.new ≡ replicate 1024 0) }
    ensures forks_after { (forks.new ≡ replicate 1024 0) × (seen.new ≡ replicate 1024 0) × (row.new ≡ replicate 1024 0) }
{
    let passed = deque_test_in(
        table, p, quota, next, status, amounts, left, right, leftmost, under, over, first, workers,
        busy, held, highest, turns, rises, falls, forks, seen, row,
    );
    if both(written, passed) {
        *parents = *seen;
        *seen = [0; 1024];
        return 0;
    }
    *seen = [0; 1024];
    let blank = deque_blank_in(
        p, quota, next, status, amounts, left, right, leftmost, under, over, first, workers, busy,
        held, highest, turns,
    );
    if blank {
        *parents = [0; 1024];
        return 0;
    }
    32
}
