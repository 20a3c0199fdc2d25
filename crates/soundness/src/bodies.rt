// Clauses of soundness that go through the bodies: next actions, the order of what is done, statuses, waiting.
ghost use Rattle.std.specs.Prelude.{◌≡◌, ◌+◌, ◌<◌, get_or, replicate};
ghost use Rattle.table.specs.Format.{table_of};
ghost use Rattle.table.specs.Checks.{owner, end_of};
ghost use Rattle.table.specs.Rules.{Rules};
ghost use Rattle.table.specs.Sum.{Read};
ghost use Rattle.schedule.specs.Sound.{next_in_body, in_order, status_follows, waits_at_join};
ghost use Rattle.order.specs.Words.{all_below};
ghost use Rattle.schedule.specs.Parents.{Parents};
ghost use Rattle.soundness.specs.Code.Checks.{Accepted, Placed, Forks, Noted, done_at, done_to, unborn_at, join_done, body_in_order};
ghost use Rattle.soundness.specs.Tested.{parents_in};

use schedule::statuses::{ENDED, UNBORN, WAITING};
use table::kinds::Kind;
use table::read;

// A 16-bit number: that it is in its range is known of a parameter, not of an element.
fn wide(x: u16) -> usize
    ensures { Read x 65536 result }
{
    x as usize
}

// A thread's last action.
pub(crate) fn end_of(table: &[u8], t: usize) -> usize
    requires rules { Rules table.now }
    requires t_bound { t < (table_of table.now).threads }
    ensures { result ≡ end_of (table_of table.now) t }
{
    read::first(table, t) + read::count(table, t) - 1
}

// Of one thread: "the next action of each thread below n lies in its own body".
fn next_in_body(table: &[u8], t: usize, next: &[u16; 1024]) -> bool
    requires rules { Rules table.now }
    requires t_bound { t < (table_of table.now).threads }
    ensures { result ≡ next_in_body (table_of table.now) next.now t }
{
    let first = read::first(table, t);
    let a = wide(next[t]);
    first <= a && a <= end_of(table, t)
}

// "the next action of each thread below n lies in its own body"
pub(crate) fn next_in_bodies(table: &[u8], n: usize, next: &[u16; 1024]) -> bool
    requires { Accepted table.now n }
    ensures { result ≡ all_below (next_in_body (table_of table.now) next.now) n }
{
    for t in 0..n {
        if !next_in_body(table, t, next) {
            return false;
        }
    }
    true
}

// The fork and the parent of the thread that action a of thread t forks, if it forks one.
fn note_fork(
    table: &[u8],
    n: usize,
    t: usize,
    a: usize,
    forks: &mut [u16; 1024],
    parents: &mut [u16; 1024],
)
    requires accepted { Accepted table.now n }
    requires a_bound { a < (table_of table.now).actions }
    requires a_value { owner (table_of table.now) a ≡ t }
    requires noted { Noted (table_of table.now) forks.old parents.old a }
    ensures { Noted (table_of table.now) forks.new parents.new (a + 1) }
{
    if let Kind::Fork = read::kind(table, n, a) {
        let c = read::argument(table, n, a);
        forks[c] = a as u16;
        parents[c] = t as u16;
    }
}

// Each thread's fork and parent.
pub(crate) fn fill_forks(table: &[u8], n: usize, forks: &mut [u16; 1024], parents: &mut [u16; 1024])
    requires accepted { Accepted table.now n }
    requires forks_value { (forks.old ≡ replicate 1024 0) × (parents.old ≡ replicate 1024 0) }
    ensures forks { Forks (table_of table.now) forks.new }
    ensures parents_after { parents.new ≡ parents_in (table_of table.now) }
{
    let mut first = 0;
    for t in 0..n {
        let stop = first + read::count(table, t);
        for a in first..stop {
            note_fork(table, n, t, a, forks, parents);
        }
        first = stop;
    }
}

// Where what is done of thread u stops: at its next action, past it if the thread has ended.
pub(crate) fn done_to(u: usize, next: &[u16; 1024], status: &[u8; 1024]) -> usize
    requires { u < 1024 }
    ensures { result ≡ done_to next.now status.now u }
{
    let at = wide(next[u]);
    if status[u] == ENDED { at + 1 } else { at }
}

// Action a of thread u is done.
fn is_done(u: usize, a: usize, next: &[u16; 1024], status: &[u8; 1024]) -> bool
    requires { u < 1024 }
    ensures { result ≡ done_at next.now status.now u a }
{
    a < done_to(u, next, status)
}

// A thread other than the root is unborn while its fork is not done.
fn is_unborn(
    t: usize,
    forks: &[u16; 1024],
    parents: &[u16; 1024],
    next: &[u16; 1024],
    status: &[u8; 1024],
) -> bool
    requires { (t < 1024) × (get_or parents.now t 0 < 1024) }
    ensures { result ≡ unborn_at forks.now parents.now next.now status.now t }
{
    let u = wide(parents[t]);
    let fork = wide(forks[t]);
    0 < t && !is_done(u, fork, next, status)
}

// Action a is no join, or the child that it joins has ended.
fn join_done(table: &[u8], n: usize, a: usize, next: &[u16; 1024], status: &[u8; 1024]) -> bool
    requires accepted { Accepted table.now n }
    requires a_bound { a < (table_of table.now).actions }
    ensures { result ≡ join_done (table_of table.now) next.now status.now a }
{
    let Kind::Join = read::kind(table, n, a) else {
        return true;
    };
    let c = read::argument(table, n, a);
    is_done(c, end_of(table, c), next, status)
}

// Of one thread's actions: "no action is done before those it depends on". An unborn thread has done none; each join done comes after its child's end.
fn thread_in_order(
    table: &[u8],
    n: usize,
    t: usize,
    forks: &[u16; 1024],
    parents: &[u16; 1024],
    next: &[u16; 1024],
    status: &[u8; 1024],
) -> bool
    requires accepted { Accepted table.now n }
    requires t_lt_n { t < n }
    requires placed { Placed table.now n next.now }
    requires forks { Forks (table_of table.now) forks.now }
    requires parents { Parents (table_of table.now) parents.now }
    ensures { result ≡ body_in_order (table_of table.now) next.now status.now t }
{
    let first = read::first(table, t);
    let stop = done_to(t, next, status);
    if is_unborn(t, forks, parents, next, status) {
        return stop <= first;
    }
    for a in first..stop {
        if !join_done(table, n, a, next, status) {
            return false;
        }
    }
    true
}

// "no action is done before those it depends on"
pub(crate) fn in_order(
    table: &[u8],
    n: usize,
    forks: &[u16; 1024],
    parents: &[u16; 1024],
    next: &[u16; 1024],
    status: &[u8; 1024],
) -> bool
    requires accepted { Accepted table.now n }
    requires placed { Placed table.now n next.now }
    requires forks { Forks (table_of table.now) forks.now }
    requires parents { Parents (table_of table.now) parents.now }
    ensures { result ≡ all_below (in_order (table_of table.now) next.now status.now) (table_of table.now).actions }
{
    for t in 0..n {
        if !thread_in_order(table, n, t, forks, parents, next, status) {
            return false;
        }
    }
    true
}

// Of one thread: "statuses .. follow from what is done".
fn status_follows(
    table: &[u8],
    t: usize,
    forks: &[u16; 1024],
    parents: &[u16; 1024],
    next: &[u16; 1024],
    status: &[u8; 1024],
) -> bool
    requires rules { Rules table.now }
    requires t_bound { t < (table_of table.now).threads }
    requires forks { Forks (table_of table.now) forks.now }
    requires parents { Parents (table_of table.now) parents.now }
    ensures { result ≡ status_follows (table_of table.now) next.now status.now t }
{
    let s = status[t];
    let unborn = is_unborn(t, forks, parents, next, status);
    if (s == UNBORN) != unborn {
        return false;
    }
    if s != ENDED {
        return s <= ENDED;
    }
    wide(next[t]) == end_of(table, t)
}

// "statuses .. follow from what is done"
pub(crate) fn statuses_follow(
    table: &[u8],
    n: usize,
    forks: &[u16; 1024],
    parents: &[u16; 1024],
    next: &[u16; 1024],
    status: &[u8; 1024],
) -> bool
    requires accepted { Accepted table.now n }
    requires forks { Forks (table_of table.now) forks.now }
    requires parents { Parents (table_of table.now) parents.now }
    ensures { result ≡ all_below (status_follows (table_of table.now) next.now status.now) n }
{
    for t in 0..n {
        if !status_follows(table, t, forks, parents, next, status) {
            return false;
        }
    }
    true
}

// Of one thread: "a thread waits only at a join of a child not ended".
fn waits_at_join(table: &[u8], n: usize, t: usize, next: &[u16; 1024], status: &[u8; 1024]) -> bool
    requires accepted { Accepted table.now n }
    requires t_lt_n { t < n }
    requires placed { Placed table.now n next.now }
    ensures { result ≡ waits_at_join (table_of table.now) next.now status.now t }
{
    if status[t] != WAITING {
        return true;
    }
    let a = wide(next[t]);
    let Kind::Join = read::kind(table, n, a) else {
        return false;
    };
    let c = read::argument(table, n, a);
    status[c] != ENDED
}

// "a thread waits only at a join of a child not ended"
pub(crate) fn waits_at_joins(
    table: &[u8],
    n: usize,
    next: &[u16; 1024],
    status: &[u8; 1024],
) -> bool
    requires accepted { Accepted table.now n }
    requires placed { Placed table.now n next.now }
    ensures { result ≡ all_below (waits_at_join (table_of table.now) next.now status.now) n }
{
    for t in 0..n {
        if !waits_at_join(table, n, t, next, status) {
            return false;
        }
    }
    true
}
