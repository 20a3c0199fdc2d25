// The test of a record, on its parts in lent memory and by value: the common part, the list's clauses and its links, turns taken; by value also the table's length and the bytes past it.
ghost use Rattle.std.specs.Prelude.{◌≡◌, true, ◌≤◌, None, Some, length, take, replicate};
ghost use Rattle.table.specs.Format.{table_of};
ghost use Rattle.table.specs.Sum.{pick};
ghost use Rattle.schedule.specs.Record.{table_in};
ghost use Rattle.schedule.specs.Sound.{listed as listed_of, sound as sound_of};
ghost use Rattle.soundness.specs.Code.Checks.{Accepted, Placed, links_sound, copy_sound};
ghost use Rattle.soundness.specs.Tested.{parents_in, parents_if, sound_on};

use crate::common::test_common;
use crate::listed::list_follows;
use crate::numbers::in_serial_order;
use crate::unused::bytes_rest;
use schedule::{Run, Worker};
use table::read;

// The clauses on the list; the numbers of next actions are kept in `numbers`.
fn list_sound(
    table: &[u8],
    n: usize,
    next: &[u16; 1024],
    status: &[u8; 1024],
    list: &[u16; 1024],
    len: usize,
    numbers: &mut [u16; 1024],
) -> bool
    requires accepted { Accepted table.now n }
    requires placed { Placed table.now n next.now }
    requires len_bound { (len ≤ 1024) × (length list.now ≡ 1024) }
    ensures { result ≡ listed_of (table_of table.now) next.now status.now (take len list.now) }
{
    if !list_follows(n, status, list, len) {
        return false;
    }
    in_serial_order(table, n, next, list, len, numbers)
}

// The list that is read off the links, "Reading from the left", into `row`: its clauses, and "that the links describe that list" (N10).
fn links_sound(
    table: &[u8],
    n: usize,
    next: &[u16; 1024],
    status: &[u8; 1024],
    left: &[u16; 1024],
    right: &[u16; 1024],
    leftmost: u16,
    numbers: &mut [u16; 1024],
    row: &mut [u16; 1024],
) -> bool
    requires accepted { Accepted table.now n }
    requires placed { Placed table.now n next.now }
    ensures { result ≡ links_sound (table_of table.now) next.now status.now (record { left = left.now; right = right.now; head = leftmost }) }
{
    *row = [0; 1024];
    let len = links::read_row(right, leftmost, row);
    if !list_sound(table, n, next, status, row, len, numbers) {
        return false;
    }
    links::describe(left, right, leftmost, row, len)
}

// All clauses on the parts, `forks` and `row` left as they used them; the parents where all hold.
fn sound_parts(
    table: &[u8],
    p: u8,
    quota: u32,
    next: &[u16; 1024],
    status: &[u8; 1024],
    amounts: &[u64; 1024],
    left: &[u16; 1024],
    right: &[u16; 1024],
    leftmost: u16,
    workers: [Worker; 16],
    busy: u16,
    held: u64,
    highest: u64,
    turns: u64,
    rises: &mut [u64; 1024],
    falls: &mut [u64; 1024],
    forks: &mut [u16; 1024],
    parents: &mut [u16; 1024],
    row: &mut [u16; 1024],
) -> bool
    ensures value { result ≡ sound_on table.now p quota next.now status.now amounts.now
        (record { left = left.now; right = right.now; head = leftmost }) workers busy held highest turns }
    ensures parents_after { result ≡ true → parents.new ≡ parents_in (table_of table.now) }
    ensures rises_after { (rises.new ≡ replicate 1024 0) × (falls.new ≡ replicate 1024 0) }
{
    let common = test_common(
        table, p, quota, next, status, amounts, workers, busy, held, highest, rises, falls, forks,
        parents,
    );
    if !common {
        return false;
    }
    if turns == u64::MAX {
        return false;
    }
    let n = read::threads(table);
    links_sound(table, n, next, status, left, right, leftmost, forks, row)
}

// "A record is sound if ..", on parts in lent memory; the table stands apart from them. Each thread's parent where they are sound, else 0; the other working memory, which may hold
// anything, is left cleared.
pub fn test_in(
    table: &[u8],
    p: u8,
    quota: u32,
    next: &[u16; 1024],
    status: &[u8; 1024],
    amounts: &[u64; 1024],
    left: &[u16; 1024],
    right: &[u16; 1024],
    leftmost: u16,
    workers: [Worker; 16],
    busy: u16,
    held: u64,
    highest: u64,
    turns: u64,
    rises: &mut [u64; 1024],
    falls: &mut [u64; 1024],
    forks: &mut [u16; 1024],
    parents: &mut [u16; 1024],
    row: &mut [u16; 1024],
) -> bool
    ensures value { result ≡ sound_on table.now p quota next.now status.now amounts.now
        (record { left = left.now; right = right.now; head = leftmost }) workers busy held highest turns }
    ensures parents_after { parents.new ≡ parents_if result (table_of table.now) }
    ensures rises_after { (rises.new ≡ replicate 1024 0) × (falls.new ≡ replicate 1024 0) }
    ensures forks_after { (forks.new ≡ replicate 1024 0) × (row.new ≡ replicate 1024 0) }
{
    let passed = sound_parts(
        table, p, quota, next, status, amounts, left, right, leftmost, workers, busy, held,
        highest, turns, rises, falls, forks, parents, row,
    );
    *forks = [0; 1024];
    *row = [0; 1024];
    if !passed {
        *parents = [0; 1024];
    }
    passed
}

// The table's length, and the bytes past it.
pub fn copy_sound(run: Run) -> bool
    ensures value { result ≡ copy_sound run }
    ensures length_bound { result ≡ true → run.length ≤ 36868 }
{
    let length = run.length as usize;
    if 36868 < length {
        return false;
    }
    let table = run.table;
    bytes_rest(&table, length)
}

// The same of a record by value.
pub(crate) fn sound(run: Run) -> Option<[u16; 1024]>
    ensures { result ≡ pick (sound_of run) (Some (parents_in (table_in run))) None }
{
    if !copy_sound(run) {
        return None;
    }
    let length = run.length as usize;
    let table = run.table;
    let bytes = &table[..length];
    let next = run.next;
    let status = run.status;
    let amounts = run.amounts;
    let left = run.left;
    let right = run.right;
    let workers = run.worker;
    let mut rises = [0u64; 1024];
    let mut falls = [0u64; 1024];
    let mut forks = [0u16; 1024];
    let mut parents = [0u16; 1024];
    let mut row = [0u16; 1024];
    let passed = test_in(
        bytes,
        run.workers,
        run.quota,
        &next,
        &status,
        &amounts,
        &left,
        &right,
        run.leftmost,
        workers,
        run.busy,
        run.held,
        run.highest,
        run.turns,
        &mut rises,
        &mut falls,
        &mut forks,
        &mut parents,
        &mut row,
    );
    if passed { Some(parents) } else { None }
}
