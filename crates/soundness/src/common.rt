// What any kind of run over a table keeps: the clauses on its threads, on who holds them and on amounts, with the table's own checks, 20 and 21.
ghost use Rattle.std.specs.Prelude.{◌≡◌, true, ◌≤◌, length, replicate};
ghost use Rattle.table.specs.Format.{table_of};
ghost use Rattle.table.specs.Pass.{first_found};
ghost use Rattle.table.specs.Checks.{passes};
ghost use Rattle.schedule.specs.Sound.{common_sound};
ghost use Rattle.order.specs.Words.{is_nothing};
ghost use Rattle.schedule.specs.Parents.{Parents};
ghost use Rattle.soundness.specs.Code.Checks.{Accepted, Forks, threads_sound, holders_sound};
ghost use Rattle.soundness.specs.Tested.{parents_if};

use crate::amounts::held_right;
use crate::beginning::settings_fault;
use crate::bodies::{fill_forks, in_order, next_in_bodies, statuses_follow, waits_at_joins};
use crate::holders::{busy_right, one_holder_each, workers_right};
use crate::shares::amounts_right;
use crate::unused::unused_right;
use schedule::Worker;
use table::read;

// Next actions, the order of what is done, statuses, waiting threads, threads not in use.
fn threads_sound(
    table: &[u8],
    n: usize,
    forks: &[u16; 1024],
    parents: &[u16; 1024],
    next: &[u16; 1024],
    status: &[u8; 1024],
) -> bool
    requires accepted { Accepted table.now n }
    requires forks { Forks (table_of table.now) forks.now }
    requires parents { Parents (table_of table.now) parents.now }
    ensures value { result ≡ threads_sound (table_of table.now) n next.now status.now }
    ensures next_len { result ≡ true → (length next.now ≡ 1024) × (length status.now ≡ 1024) }
{
    if !next_in_bodies(table, n, next) {
        return false;
    }
    if !in_order(table, n, forks, parents, next, status) {
        return false;
    }
    if !statuses_follow(table, n, forks, parents, next, status) {
        return false;
    }
    if !waits_at_joins(table, n, next, status) {
        return false;
    }
    unused_right(n, next, status)
}

// Held threads and their workers.
fn holders_sound(n: usize, p: u8, quota: u32, status: &[u8; 1024], workers: [Worker; 16]) -> bool
    requires { n ≤ 1024 }
    ensures { result ≡ holders_sound n p quota status.now workers }
{
    if !one_holder_each(n, status, workers) {
        return false;
    }
    workers_right(n, p, quota, workers)
}

// The common part over an accepted table, each thread's fork and parent given; what the threads hold is kept in `shares`.
fn common_holds(
    table: &[u8],
    n: usize,
    p: u8,
    quota: u32,
    forks: &[u16; 1024],
    parents: &[u16; 1024],
    next: &[u16; 1024],
    status: &[u8; 1024],
    amounts: &[u64; 1024],
    workers: [Worker; 16],
    busy: u16,
    held: u64,
    highest: u64,
    shares: &mut [u64; 1024],
) -> bool
    requires accepted { Accepted table.now n }
    requires forks { Forks (table_of table.now) forks.now }
    requires parents { Parents (table_of table.now) parents.now }
    ensures { result ≡ common_sound table.now p quota next.now status.now amounts.now workers busy held highest }
{
    if settings_fault(p, quota).is_err() {
        return false;
    }
    if !threads_sound(table, n, forks, parents, next, status) {
        return false;
    }
    if !holders_sound(n, p, quota, status, workers) {
        return false;
    }
    if !held_right(table, n, next, status, held) {
        return false;
    }
    if !amounts_right(table, n, next, status, amounts, shares) {
        return false;
    }
    held <= highest && busy_right(busy, workers)
}

// The table's own checks and the common part, the working memory left as they used it.
fn common_parts(
    table: &[u8],
    p: u8,
    quota: u32,
    next: &[u16; 1024],
    status: &[u8; 1024],
    amounts: &[u64; 1024],
    workers: [Worker; 16],
    busy: u16,
    held: u64,
    highest: u64,
    rises: &mut [u64; 1024],
    falls: &mut [u64; 1024],
    forks: &mut [u16; 1024],
    parents: &mut [u16; 1024],
) -> bool
    ensures value { result ≡ common_sound table.now p quota next.now status.now amounts.now workers busy held highest }
    ensures parents_after { parents.new ≡ parents_if (is_nothing (first_found (passes table.now))) (table_of table.now) }
    ensures falls_after { falls.new ≡ replicate 1024 0 }
{
    *forks = [0; 1024];
    *parents = [0; 1024];
    if checks::check_in(table, rises, falls).is_err() {
        return false;
    }
    let n = read::threads(table);
    fill_forks(table, n, forks, parents);
    common_holds(
        table, n, p, quota, forks, parents, next, status, amounts, workers, busy, held, highest,
        rises,
    )
}

// What any kind of run over a table keeps, with the table's own checks, 20 and 21. Each thread's parent wherever the bytes are a table; the other working memory, which may hold
// anything, is left cleared.
pub fn test_common(
    table: &[u8],
    p: u8,
    quota: u32,
    next: &[u16; 1024],
    status: &[u8; 1024],
    amounts: &[u64; 1024],
    workers: [Worker; 16],
    busy: u16,
    held: u64,
    highest: u64,
    rises: &mut [u64; 1024],
    falls: &mut [u64; 1024],
    forks: &mut [u16; 1024],
    parents: &mut [u16; 1024],
) -> bool
    ensures value { result ≡ common_sound table.now p quota next.now status.now amounts.now workers busy held highest }
    ensures parents_after { parents.new ≡ parents_if (is_nothing (first_found (passes table.now))) (table_of table.now) }
    ensures rises_after { (rises.new ≡ replicate 1024 0) × (falls.new ≡ replicate 1024 0) × (forks.new ≡ replicate 1024 0) }
{
    let passed = common_parts(
        table, p, quota, next, status, amounts, workers, busy, held, highest, rises, falls, forks,
        parents,
    );
    *rises = [0; 1024];
    *forks = [0; 1024];
    passed
}
