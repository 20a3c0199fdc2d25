// The filled-out table's rows, put one after another: the head, the entries, the bodies of the table's own threads, the trees.
ghost use Rattle.std.specs.Prelude.{◌≡◌, ◌<◌, length, get_or, ltb};
ghost use mathlib.Core.List.{[], ◌∷◌, ◌++◌, flatten};
ghost use Rattle.table.specs.Format.{code_of, table_of};
ghost use Rattle.table.specs.Serial.{serial_order};
ghost use Rattle.table.specs.Sum.{pick, Read};
ghost use Rattle.table.specs.Written.{action_at, entry_rows, action_rows, table_rows};
ghost use Rattle.text.specs.Text.{buffer_at, placed};
ghost use Rattle.rows.specs.Rows.{cut_action};
ghost use Rattle.text.specs.Puts.{put_all};
ghost use Rattle.filling.specs.Filled.{root_of, in_front, filled_from, filled_body, trees_along, filled_bodies, threads_to, actions_to};
ghost use Rattle.filling.specs.TreeSizes.{tree_body};
ghost use Rattle.filling.specs.Code.Steps.{Ready, Sums, Sizes, Starts, front_rows};

use crate::count::amount;
use crate::numbers::{Place, place_after};
use rows::{put_action, put_pair};
use table::kinds::Kind;
use table::read;

// A kind and its argument.
fn put_kind(out: &mut [u8], at: usize, kind: Kind, x: usize) -> usize
    ensures { buffer_at out.new result ≡ placed out.old at (cut_action (code_of kind) x) }
{
    put_action(out, at, kind.code(), x)
}

// In front of an alloc of x, where it is above the quota, the fork and the join of its tree.
fn put_front(out: &mut [u8], at: usize, x: usize, quota: usize, root: usize) -> usize
    ensures { buffer_at out.new result ≡ put_all (buffer_at out.old at) (front_rows quota x root) }
{
    if x <= quota {
        return at;
    }
    let after = put_kind(out, at, Kind::Fork, root);
    put_kind(out, after, Kind::Join, root)
}

// Action a with what it gets in front of it.
fn put_step(
    out: &mut [u8],
    at: usize,
    table: &[u8],
    n: usize,
    quota: usize,
    a: usize,
    root: usize,
) -> usize
    requires ready { Ready table.now n quota }
    requires a_bound { a < (table_of table.now).actions }
    requires root_value { root ≡ root_of (table_of table.now) quota a }
    ensures { buffer_at out.new result ≡ put_all (buffer_at out.old at) (action_rows (in_front (table_of table.now) quota a ++ (action_at (table_of table.now) a ∷ []))) }
{
    let after = put_front(out, at, amount(table, n, a), quota, root);
    put_action(
        out,
        after,
        read::code(table, n, a),
        read::argument(table, n, a),
    )
}

// The bodies of the table's own threads.
fn put_bodies(
    out: &mut [u8],
    at: usize,
    table: &[u8],
    n: usize,
    quota: usize,
    sums: &[u64; 1024],
    starts: &[u64; 1024],
) -> usize
    requires ready { Ready table.now n quota }
    requires sums { Sums (table_of table.now) quota sums.now 0 }
    requires starts { Starts (table_of table.now) quota (table_of table.now).actions starts.now }
    ensures { buffer_at out.new result ≡ put_all (buffer_at out.old at) (action_rows (filled_from (table_of table.now) quota 0 (table_of table.now).actions)) }
{
    let m = read::actions(table);
    let mut at = at;
    let mut place = Place { thread: 0, root: n };
    for a in 0..m {
        at = put_step(out, at, table, n, quota, a, place.root);
        place = place_after(table, n, quota, a, place, sums, starts);
    }
    at
}

// The body of new thread c, the root of a tree of d.
fn put_tree(out: &mut [u8], at: usize, c: usize, d: usize) -> usize
    requires { (c < 1024) × (d < 1024) }
    ensures { buffer_at out.new result ≡ put_all (buffer_at out.old at) (action_rows (tree_body c d)) }
{
    if d <= 1 {
        let after = put_kind(out, at, Kind::Work, 0);
        return put_kind(out, after, Kind::End, 0);
    }
    let y = c + 2 * ((d + 1) / 2);
    let at = put_kind(out, at, Kind::Fork, c + 1);
    let at = put_kind(out, at, Kind::Fork, y);
    let at = put_kind(out, at, Kind::Join, y);
    let at = put_kind(out, at, Kind::Join, c + 1);
    put_kind(out, at, Kind::End, 0)
}

// The bodies of the new threads.
fn put_trees(
    out: &mut [u8],
    at: usize,
    table: &[u8],
    n: usize,
    quota: usize,
    total: usize,
    sums: &[u64; 1024],
) -> usize
    requires ready { Ready table.now n quota }
    requires total_value { total ≡ threads_to (table_of table.now) quota (table_of table.now).actions }
    requires sizes { Sizes (table_of table.now) quota sums.now }
    ensures { buffer_at out.new result ≡ put_all (buffer_at out.old at) (action_rows (flatten (trees_along (table_of table.now) quota (table_of table.now).threads (serial_order (table_of table.now))))) }
{
    let mut at = at;
    for c in n..total {
        at = put_tree(out, at, c, sums[c] as usize);
    }
    at
}

// How many actions an action is with what it gets in front of it, if it allocates x.
fn width(x: usize, quota: usize) -> usize
    ensures { result ≡ pick (ltb quota x) 3 1 }
{
    if quota < x { 3 } else { 1 }
}

// How many actions thread t of the table has when it is filled out.
fn body_count(table: &[u8], n: usize, quota: usize, t: usize) -> usize
    requires ready { Ready table.now n quota }
    requires t_lt_n { t < n }
    ensures { Read (length (filled_body (table_of table.now) quota t)) 65536 result }
{
    let first = read::first(table, t);
    let count = read::count(table, t);
    let mut total = 0;
    for k in 0..count {
        total += width(amount(table, n, first + k), quota);
    }
    total
}

// The same of any thread.
fn count_of(table: &[u8], n: usize, quota: usize, c: usize, sums: &[u64; 1024]) -> usize
    requires ready { Ready table.now n quota }
    requires c_bound { c < threads_to (table_of table.now) quota (table_of table.now).actions }
    requires sizes { Sizes (table_of table.now) quota sums.now }
    ensures { Read (length (get_or (filled_bodies (table_of table.now) quota) c [])) 65536 result }
{
    if c < n {
        return body_count(table, n, quota, c);
    }
    if sums[c] <= 1 { 2 } else { 5 }
}

fn put_entries(
    out: &mut [u8],
    at: usize,
    table: &[u8],
    n: usize,
    quota: usize,
    total: usize,
    sums: &[u64; 1024],
) -> usize
    requires ready { Ready table.now n quota }
    requires total_value { total ≡ threads_to (table_of table.now) quota (table_of table.now).actions }
    requires sizes { Sizes (table_of table.now) quota sums.now }
    ensures { buffer_at out.new result ≡ put_all (buffer_at out.old at) (entry_rows 0 (filled_bodies (table_of table.now) quota)) }
{
    let mut at = at;
    let mut first = 0;
    for c in 0..total {
        let count = count_of(table, n, quota, c, sums);
        at = put_pair(out, at, first, count);
        first += count;
    }
    at
}

// The whole filled-out table.
pub(crate) fn put_table(
    out: &mut [u8],
    table: &[u8],
    n: usize,
    quota: usize,
    total: usize,
    actions: usize,
    sums: &[u64; 1024],
    starts: &[u64; 1024],
) -> usize
    requires ready { Ready table.now n quota }
    requires total_value { total ≡ threads_to (table_of table.now) quota (table_of table.now).actions }
    requires actions_value { actions ≡ actions_to (table_of table.now) quota (table_of table.now).actions }
    requires sums { Sums (table_of table.now) quota sums.now 0 }
    requires sizes { Sizes (table_of table.now) quota sums.now }
    requires starts { Starts (table_of table.now) quota (table_of table.now).actions starts.now }
    ensures { buffer_at out.new result ≡ put_all (buffer_at out.old 0) (table_rows (filled_bodies (table_of table.now) quota)) }
{
    let at = put_pair(out, 0, total, actions);
    let at = put_entries(out, at, table, n, quota, total, sums);
    let at = put_bodies(out, at, table, n, quota, sums, starts);
    put_trees(out, at, table, n, quota, total, sums)
}
