// 44, counted before anything is built: the number of dummies reaches 16 million.
ghost use Rattle.std.specs.Prelude.{◌≡◌, ◌<◌, ◌+◌, ◌-◌, ◌*◌, ◌/◌, ◌&&◌, ◌||◌, ltb};
ghost use Rattle.table.specs.Format.{table_of};
ghost use Rattle.table.specs.Checks.{alloc_of};
ghost use Rattle.table.specs.Sum.{pick, Read};
ghost use Rattle.filling.specs.Filling.{total_of};

use crate::Total;
use table::kinds::Kind;
use table::{Refusal, read};

// What action a allocates.
pub(crate) fn amount(table: &[u8], n: usize, a: usize) -> usize
    requires { n ≡ (table_of table.now).threads }
    ensures { Read (alloc_of (table_of table.now) a) 16777216 result }
{
    match read::kind(table, n, a) {
        Kind::Alloc => read::argument(table, n, a),
        _ => 0,
    }
}

// x / quota rounded up, for any quota.
pub(crate) fn dummies_of(x: usize, quota: usize) -> usize
    requires x_bound { x < 16777216 }
    requires quota_bound { quota < 4294967296 }
    ensures { Read ((x + quota - 1) / quota) 16777216 result }
{
    if quota == 0 {
        return 0;
    }
    if x == 0 {
        return 0;
    }
    (x + quota - 1) / quota
}

// What an alloc of x adds: threads, and actions.
pub(crate) fn new_threads(x: usize, quota: usize) -> usize
    requires x_bound { x < 16777216 }
    requires quota_bound { quota < 4294967296 }
    ensures { Read (pick (ltb quota x) (2 * ((x + quota - 1) / quota) - 1) 0) 33554432 result }
{
    if x <= quota {
        return 0;
    }
    let d = dummies_of(x, quota);
    if d == 0 { 0 } else { 2 * d - 1 }
}

fn new_actions(x: usize, quota: usize) -> usize
    requires x_bound { x < 16777216 }
    requires quota_bound { quota < 4294967296 }
    ensures { Read (pick (ltb quota x) (7 * ((x + quota - 1) / quota) - 3) 0) 134217728 result }
{
    if x <= quota {
        return 0;
    }
    let d = dummies_of(x, quota);
    if d == 0 { 0 } else { 7 * d - 3 }
}

// 44 at an alloc of x, with so many threads and actions.
fn is_full(x: usize, quota: usize, threads: usize, actions: usize) -> bool
    ensures { result ≡ (ltb quota x && (ltb 1024 threads || ltb 8192 actions)) }
{
    quota < x && (1024 < threads || 8192 < actions)
}

// Over any bytes: 44 at the lowest action at which the filled-out table passes a limit, else its threads and actions.
pub fn count(table: &[u8], quota: u32) -> Result<Total, Refusal>
    ensures { result ≡ total_of (table_of table.now) quota }
{
    let n = read::threads(table);
    let m = read::actions(table);
    let most = quota as usize;
    let mut threads = n;
    let mut actions = m;
    for a in 0..m {
        let x = amount(table, n, a);
        threads += new_threads(x, most);
        actions += new_actions(x, most);
        if is_full(x, most, threads, actions) {
            return Err(Refusal::new(44, a as u16));
        }
    }
    Ok(Total { threads, actions })
}
