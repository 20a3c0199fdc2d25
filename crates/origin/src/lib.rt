// Which action of the table as given an action of the table that runs is (N6). Definitions in specs/Origin, laws in proofs/Origins.
#![tactic(auto)]

ghost use Rattle.std.specs.Prelude.{◌≡◌, suc, ◌+◌, ◌-◌, ◌*◌, ◌/◌, ◌≤◌, ◌<◌, ltb, leb, ◌||◌};
ghost use Rattle.table.specs.Checks.{alloc_of};
ghost use Rattle.table.specs.Format.{is, table_of};
ghost use Rattle.table.specs.declared.kinds.Kind.TheVariants.{Fork as fork, Join as join};
ghost use Rattle.table.specs.Sum.{pick, sum_to, Read};
ghost use Rattle.filling.specs.Filled.{new_threads};
ghost use Rattle.origin.specs.Origin.{bigs_to, bodies_to, put_in, origin_in};

use table::kinds::Kind;
use table::{outside, read};

// No action, as C gets it: a table has at most 65,535.
const NONE: u32 = 65535;

// Of the first actions of a table: the allocs above the quota, and the threads that they brought.
#[derive(Clone, Copy)]
struct Counted {
    bigs: usize,
    threads: usize,
}

// What action a allocates. `filling` has this too, and the function after it: with a condition on their arguments, neither is public there.
fn amount(table: &[u8], n: usize, a: usize) -> usize
    requires { n ≡ (table_of table.now).threads }
    ensures { Read (alloc_of (table_of table.now) a) 16777216 result }
{
    match read::kind(table, n, a) {
        Kind::Alloc => read::argument(table, n, a),
        _ => 0,
    }
}

// The threads that an alloc of x brings.
fn new_threads(x: usize, quota: usize) -> usize
    requires x_bound { x < 16777216 }
    requires le_quota { (1 ≤ quota) × (quota < 16777216) }
    ensures { Read (pick (ltb quota x) (2 * ((x + quota - 1) / quota) - 1) 0) 67108864 result }
{
    if x <= quota {
        return 0;
    }
    2 * ((x + quota - 1) / quota) - 1
}

// 1 for an alloc of x above the quota.
fn above(x: usize, quota: usize) -> usize
    ensures { Read (pick (ltb quota x) 1 0) 2 result }
{
    if quota < x { 1 } else { 0 }
}

// Over the first k actions.
fn brought(table: &[u8], n: usize, quota: usize, k: usize) -> Counted
    requires n_value { n ≡ (table_of table.now).threads }
    requires le_quota { (1 ≤ quota) × (quota < 16777216) }
    requires k_bound { k ≤ 65536 }
    ensures read { Read (bigs_to (table_of table.now) quota k) 65537 result.bigs }
    ensures threads_value { result.threads ≡ sum_to (new_threads (table_of table.now) quota) k }
{
    let mut bigs = 0;
    let mut threads = 0;
    for a in 0..k {
        let x = amount(table, n, a);
        bigs += above(x, quota);
        threads += new_threads(x, quota);
    }
    Counted { bigs, threads }
}

// Where the bodies of the threads from t on begin.
fn bodies_to(table: &[u8], n: usize, t: usize) -> usize
    requires { n ≡ (table_of table.now).threads }
    ensures { result ≡ bodies_to (table_of table.now) t }
{
    if t < n {
        return read::first(table, t);
    }
    read::actions(table)
}

// Whether an action of this kind names a thread.
fn names_thread(kind: Kind) -> bool
    ensures { result ≡ (is fork kind || is join kind) }
{
    match kind {
        Kind::Fork | Kind::Join => true,
        _ => false,
    }
}

fn at_least(x: usize, y: usize) -> bool
    ensures { result ≡ leb y x }
{
    y <= x
}

// Whether action a, of a table with `given` threads before it was filled out, was put in.
fn is_put_in(table: &[u8], n: usize, given: usize, a: usize) -> bool
    requires { n ≡ (table_of table.now).threads }
    ensures { result ≡ put_in (table_of table.now) given a }
{
    if bodies_to(table, n, given) <= a {
        return true;
    }
    if names_thread(read::kind(table, n, a)) {
        return at_least(read::argument(table, n, a), given);
    }
    false
}

// Action a of a filled-out table without what was put in before it: each alloc above the quota has a fork and a join in front of it.
fn kept(table: &[u8], n: usize, quota: usize, a: usize) -> usize
    requires n_value { n ≡ (table_of table.now).threads }
    requires le_quota { (1 ≤ quota) × (quota < 16777216) }
    requires a_bound { a < 65536 }
    ensures { Read (a - 2 * bigs_to (table_of table.now) quota (a + 1)) 65536 result }
{
    let counted = brought(table, n, quota, a + 1);
    a.saturating_sub(2 * counted.bigs)
}

// Of action a of the table that runs with this quota: the action of the table as given that it is, or 65,535 where it was put in, or where there is no such action or quota.
pub fn origin(table: &[u8], quota: u32, a: u64) -> u32
    ensures { result ≡ origin_in (table_of table.now) quota a }
{
    let m = read::actions(table);
    if outside(1, 16777215, quota as usize) {
        return NONE;
    }
    if m as u64 <= a {
        return NONE;
    }
    let n = read::threads(table);
    let at = a as usize;
    let all = brought(table, n, quota as usize, m);
    let given = n.saturating_sub(all.threads);
    if is_put_in(table, n, given, at) {
        return NONE;
    }
    kept(table, n, quota as usize, at) as u32
}
