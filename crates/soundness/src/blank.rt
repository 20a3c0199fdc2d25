// The blank record: "every number 0, every status unborn, the list empty".
ghost use Rattle.std.specs.Prelude.{◌≡◌, ◌&&◌, eqb, length, get_or};
ghost use Rattle.schedule.specs.Machine.{nobody};
ghost use Rattle.order.specs.Words.{all_below};
ghost use Rattle.schedule.specs.Turn.{is_nobody, is_blank};
ghost use Rattle.soundness.specs.Code.Checks.{zero_arrays};
ghost use Rattle.soundness.specs.Tested.{blank_on};

use crate::holders::workers_right;
use crate::unused::bytes_rest;
use schedule::{Run, Worker};

// The threads' numbers are all 0, and so are the links: "in the blank record all are 0" (N10).
fn zero_arrays(
    next: &[u16; 1024],
    status: &[u8; 1024],
    amounts: &[u64; 1024],
    left: &[u16; 1024],
    right: &[u16; 1024],
) -> bool
    ensures { result ≡ zero_arrays next.now status.now amounts.now left.now right.now }
{
    if !next.iter().all(|x| *x == 0) {
        return false;
    }
    if !status.iter().all(|x| *x == 0) {
        return false;
    }
    if !amounts.iter().all(|x| *x == 0) {
        return false;
    }
    if !left.iter().all(|x| *x == 0) {
        return false;
    }
    right.iter().all(|x| *x == 0)
}

// No worker holds anything.
fn all_free(workers: [Worker; 16]) -> bool
    ensures { result ≡ (eqb (length workers) 16 && all_below (λ w. is_nobody (get_or workers w nobody)) 16) }
{
    workers_right(0, 0, 0, workers)
}

// Nothing is counted.
fn zero_totals(busy: u16, held: u64, highest: u64, turns: u64) -> bool
    ensures { result ≡ (eqb busy 0 && (eqb held 0 && (eqb highest 0 && eqb turns 0))) }
{
    busy == 0 && (held == 0 && (highest == 0 && turns == 0))
}

// On parts in lent memory; the table stands apart from them.
pub fn blank_in(
    p: u8,
    quota: u32,
    next: &[u16; 1024],
    status: &[u8; 1024],
    amounts: &[u64; 1024],
    left: &[u16; 1024],
    right: &[u16; 1024],
    leftmost: u16,
    workers: [Worker; 16],
    busy: u16,
    held: u64,
    highest: u64,
    turns: u64,
) -> bool
    ensures { result ≡ blank_on p quota next.now status.now amounts.now
        (record { left = left.now; right = right.now; head = leftmost }) workers busy held highest turns }
{
    if p != 0 {
        return false;
    }
    if quota != 0 {
        return false;
    }
    if !zero_arrays(next, status, amounts, left, right) {
        return false;
    }
    if leftmost != 0 {
        return false;
    }
    if !all_free(workers) {
        return false;
    }
    zero_totals(busy, held, highest, turns)
}

// The same of a record by value.
pub(crate) fn is_blank(run: Run) -> bool
    ensures { result ≡ is_blank run }
{
    let table = run.table;
    if !bytes_rest(&table, 0) {
        return false;
    }
    if run.length != 0 {
        return false;
    }
    let next = run.next;
    let status = run.status;
    let amounts = run.amounts;
    let left = run.left;
    let right = run.right;
    let workers = run.worker;
    blank_in(
        run.workers,
        run.quota,
        &next,
        &status,
        &amounts,
        &left,
        &right,
        run.leftmost,
        workers,
        run.busy,
        run.held,
        run.highest,
        run.turns,
    )
}
