// The test of a record on its parts in lent memory: the part that any kind of run has in common, turns taken, the deques.
ghost use Rattle.std.specs.Prelude.{◌≡◌, true, replicate};
ghost use Rattle.table.specs.Format.{table_of};
ghost use Rattle.soundness.specs.Tested.{parents_in, parents_if};
ghost use Rattle.dequetest.specs.DequeTested.{deque_sound_on};

use crate::lines::deques_stand;
use schedule::Worker;
use soundness::test_common;
use table::read;

// All clauses on the parts, `forks` and `row` left as they used them; the parents where all hold.
fn sound_parts(
    table: &[u8],
    p: u8,
    quota: u32,
    next: &[u16; 1024],
    status: &[u8; 1024],
    amounts: &[u64; 1024],
    left: &[u16; 1024],
    right: &[u16; 1024],
    leftmost: u16,
    under: &[u16; 1024],
    over: &[u16; 1024],
    first: u16,
    workers: [Worker; 16],
    busy: u16,
    held: u64,
    highest: u64,
    turns: u64,
    rises: &mut [u64; 1024],
    falls: &mut [u64; 1024],
    forks: &mut [u16; 1024],
    parents: &mut [u16; 1024],
    row: &mut [u16; 1024],
) -> bool
    ensures value { result ≡ deque_sound_on table.now p quota next.now status.now amounts.now
        (record { left = left.now; right = right.now; head = leftmost })
        (record { left = under.now; right = over.now; head = first }) workers busy held highest turns }
    ensures parents_after { result ≡ true → parents.new ≡ parents_in (table_of table.now) }
    ensures rises_after { (rises.new ≡ replicate 1024 0) × (falls.new ≡ replicate 1024 0) }
{
    let common = test_common(
        table, p, quota, next, status, amounts, workers, busy, held, highest, rises, falls, forks,
        parents,
    );
    if !common {
        return false;
    }
    if turns == u64::MAX {
        return false;
    }
    let n = read::threads(table);
    deques_stand(
        n, status, left, right, leftmost, under, over, first, forks, row,
    )
}

// A record of DFDeques is "sound by 01's rules and N9's, with these statements in place of those on the list", on parts in lent memory; the table stands apart from them. Each thread's parent
// where they are sound, else 0; the other working memory, which may hold anything, is left cleared.
pub fn deque_test_in(
    table: &[u8],
    p: u8,
    quota: u32,
    next: &[u16; 1024],
    status: &[u8; 1024],
    amounts: &[u64; 1024],
    left: &[u16; 1024],
    right: &[u16; 1024],
    leftmost: u16,
    under: &[u16; 1024],
    over: &[u16; 1024],
    first: u16,
    workers: [Worker; 16],
    busy: u16,
    held: u64,
    highest: u64,
    turns: u64,
    rises: &mut [u64; 1024],
    falls: &mut [u64; 1024],
    forks: &mut [u16; 1024],
    parents: &mut [u16; 1024],
    row: &mut [u16; 1024],
) -> bool
    ensures value { result ≡ deque_sound_on table.now p quota next.now status.now amounts.now
        (record { left = left.now; right = right.now; head = leftmost })
        (record { left = under.now; right = over.now; head = first }) workers busy held highest turns }
    ensures parents_after { parents.new ≡ parents_if result (table_of table.now) }
    ensures rises_after { (rises.new ≡ replicate 1024 0) × (falls.new ≡ replicate 1024 0) }
    ensures forks_after { (forks.new ≡ replicate 1024 0) × (row.new ≡ replicate 1024 0) }
{
    let passed = sound_parts(
        table, p, quota, next, status, amounts, left, right, leftmost, under, over, first, workers,
        busy, held, highest, turns, rises, falls, forks, parents, row,
    );
    *forks = [0; 1024];
    *row = [0; 1024];
    if !passed {
        *parents = [0; 1024];
    }
    passed
}
