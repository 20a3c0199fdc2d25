// The new threads' numbers, without recursion: the sums of whole threads downward, then upward where the roots of each thread begin, and the size of each tree from its parent's.
ghost use Rattle.std.specs.Prelude.{◌≡◌, ◌+◌, ◌*◌, ◌<◌, true, length, get_or, set};
ghost use Rattle.table.specs.Format.{table_of, is, kind};
ghost use Rattle.table.specs.declared.kinds.Kind.TheVariants.{Fork as fork};
ghost use Rattle.table.specs.Checks.{owner};
ghost use Rattle.table.specs.Sum.{pick, Read};
ghost use Rattle.filling.specs.Filled.{big, half, dummies, threads_to};
ghost use Rattle.filling.specs.Code.Steps.{Ready, new_of, root_step, Sums, RootsTo, Sizes, Starts, At, split_at};

use crate::count::{amount, dummies_of, new_threads};
use table::kinds::Kind;
use table::read;

// A thread, and the root that the next big alloc of it gets.
#[derive(Clone, Copy)]
pub(crate) struct Place {
    pub(crate) thread: usize,
    pub(crate) root: usize,
}

// By how much the roots after action a are higher than at it, from the sums of the later threads.
pub(crate) fn step(table: &[u8], n: usize, quota: usize, a: usize, sums: &[u64; 1024]) -> usize
    requires ready { Ready table.now n quota }
    requires a_bound { a < (table_of table.now).actions }
    requires sums { Sums (table_of table.now) quota sums.now (owner (table_of table.now) a + 1) }
    ensures { Read (root_step (table_of table.now) quota a) 16777216 result }
{
    match read::kind(table, n, a) {
        Kind::Fork => sums[read::argument(table, n, a)] as usize,
        _ => new_threads(amount(table, n, a), quota),
    }
}

// The new threads of thread t with its children.
fn thread_sum(table: &[u8], n: usize, quota: usize, t: usize, sums: &[u64; 1024]) -> usize
    requires ready { Ready table.now n quota }
    requires t_lt_n { t < n }
    requires sums { Sums (table_of table.now) quota sums.now (t + 1) }
    ensures { result ≡ new_of (table_of table.now) quota t }
{
    let first = read::first(table, t);
    let count = read::count(table, t);
    let mut total = 0;
    for k in 0..count {
        total += step(table, n, quota, first + k, sums);
    }
    total
}

// The children before their parents.
pub(crate) fn fill_sums(table: &[u8], n: usize, quota: usize, sums: &mut [u64; 1024])
    requires ready { Ready table.now n quota }
    requires sums_len { length sums.old ≡ 1024 }
    ensures { Sums (table_of table.now) quota sums.new 0 }
{
    for t in (0..n).rev() {
        sums[t] = thread_sum(table, n, quota, t, sums) as u64;
    }
}

// The place after action a: in the same thread, or the next thread's first.
pub(crate) fn place_after(
    table: &[u8],
    n: usize,
    quota: usize,
    a: usize,
    place: Place,
    sums: &[u64; 1024],
    starts: &[u64; 1024],
) -> Place
    requires ready { Ready table.now n quota }
    requires a_bound { a < (table_of table.now).actions }
    requires at { At (table_of table.now) quota a place.thread place.root }
    requires sums { Sums (table_of table.now) quota sums.now 0 }
    requires starts { Starts (table_of table.now) quota (a + 1) starts.now }
    ensures { a + 1 < (table_of table.now).actions → At (table_of table.now) quota (a + 1) result.thread result.root }
{
    match read::kind(table, n, a) {
        Kind::End => {
            let t = place.thread + 1;
            if n <= t {
                return place;
            }
            Place {
                thread: t,
                root: starts[t] as usize,
            }
        }
        _ => Place {
            thread: place.thread,
            root: place.root + step(table, n, quota, a, sums),
        },
    }
}

// At a fork: where the child's roots begin.
fn note_start(table: &[u8], n: usize, a: usize, root: usize, starts: &mut [u64; 1024])
    requires n_value { n ≡ (table_of table.now).threads }
    requires a_bound { kind (table_of table.now) a ≡ fork → (table_of table.now).argument a < 1024 }
    ensures { starts.new ≡ pick (is fork (kind (table_of table.now) a)) (set starts.old ((table_of table.now).argument a) root) starts.old }
{
    if let Kind::Fork = read::kind(table, n, a) {
        starts[read::argument(table, n, a)] = root as u64;
    }
}

// At a big alloc: the dummies of its tree, at the tree's root.
fn note_size(table: &[u8], n: usize, quota: usize, a: usize, root: usize, sums: &mut [u64; 1024])
    requires n_value { n ≡ (table_of table.now).threads }
    requires quota_bound { quota < 4294967296 }
    requires root_bound { big (table_of table.now) quota a ≡ true → root < 1024 }
    ensures { sums.new ≡ pick (big (table_of table.now) quota a) (set sums.old root (dummies (table_of table.now) quota a)) sums.old }
{
    let x = amount(table, n, a);
    if quota < x {
        sums[root] = dummies_of(x, quota) as u64;
    }
}

// Where the roots of each thread begin, the parents before their children, and the sizes of the trees at their roots.
pub(crate) fn fill_starts(
    table: &[u8],
    n: usize,
    quota: usize,
    sums: &mut [u64; 1024],
    starts: &mut [u64; 1024],
)
    requires ready { Ready table.now n quota }
    requires sums { Sums (table_of table.now) quota sums.old 0 }
    requires starts_len { length starts.old ≡ 1024 }
    ensures sums_2 { Sums (table_of table.now) quota sums.new 0 }
    ensures roots_to { RootsTo (table_of table.now) quota (table_of table.now).actions sums.new }
    ensures starts { Starts (table_of table.now) quota (table_of table.now).actions starts.new }
{
    starts[0] = n as u64;
    let m = read::actions(table);
    let mut place = Place { thread: 0, root: n };
    for a in 0..m {
        note_start(table, n, a, place.root, starts);
        note_size(table, n, quota, a, place.root, sums);
        place = place_after(table, n, quota, a, place, sums, starts);
    }
}

// The two trees that the tree at new thread c forks.
fn split(c: usize, sums: &mut [u64; 1024])
    requires c_bound { (c < 1024) × (get_or sums.old c 0 < 1024) }
    requires c_bound_2 { 1 < get_or sums.old c 0 → c + 2 * half (get_or sums.old c 0) < 1024 }
    ensures { sums.new ≡ split_at c (get_or sums.old c 0) sums.old }
{
    let d = sums[c] as usize;
    if d <= 1 {
        return;
    }
    let h = (d + 1) / 2;
    sums[c + 1] = h as u64;
    sums[c + 2 * h] = (d - h) as u64;
}

// The sizes of all new threads, from n up to `total`.
pub(crate) fn fill_sizes(table: &[u8], n: usize, quota: usize, total: usize, sums: &mut [u64; 1024])
    requires ready { Ready table.now n quota }
    requires total_value { total ≡ threads_to (table_of table.now) quota (table_of table.now).actions }
    requires sums { Sums (table_of table.now) quota sums.old 0 }
    requires roots_to { RootsTo (table_of table.now) quota (table_of table.now).actions sums.old }
    ensures sums_2 { Sums (table_of table.now) quota sums.new 0 }
    ensures sizes { Sizes (table_of table.now) quota sums.new }
{
    for c in n..total {
        split(c, sums);
    }
}
