// What each thread holds by what is done (N9): its balance so far, 0 once it is joined.
ghost use Rattle.std.specs.Prelude.{◌≡◌, true, ◌+◌, ◌<◌, length, replicate};
ghost use Rattle.table.specs.Format.{table_of};
ghost use Rattle.schedule.specs.Sound.{done_in, shares_in};
ghost use Rattle.order.specs.Words.{same_list};
ghost use Rattle.soundness.specs.Code.Checks.{Accepted, threads_sound};
ghost use Rattle.soundness.specs.Code.Balancing.{Balances, Balancing, Balanced, Cleared};

use crate::bodies::done_to;
use table::kinds::Kind;
use table::read;

// What thread t's actions come to past action a, from what those below it come to.
fn balance_after(
    table: &[u8],
    n: usize,
    t: usize,
    stop: usize,
    a: usize,
    before: u64,
    balances: &[u64; 1024],
) -> u64
    requires balancing { Balancing table.now n t stop balances.now }
    requires balanced { (Balanced table.now t stop a before) × (a < stop) }
    ensures { Balanced table.now t stop (a + 1) result }
{
    let x = read::argument(table, n, a);
    match read::kind(table, n, a) {
        Kind::Alloc => before + x as u64,
        Kind::Free => before - x as u64,
        Kind::Join => before + balances[x],
        _ => before,
    }
}

// What thread t's actions below stop come to.
fn thread_balance(table: &[u8], n: usize, t: usize, stop: usize, balances: &[u64; 1024]) -> u64
    requires { Balancing table.now n t stop balances.now }
    ensures { Balanced table.now t stop stop result }
{
    let mut sum = 0;
    for a in read::first(table, t)..stop {
        sum = balance_after(table, n, t, stop, a, sum, balances);
    }
    sum
}

// The balances so far, the children's before their parents'.
fn fill_balances(
    table: &[u8],
    n: usize,
    next: &[u16; 1024],
    status: &[u8; 1024],
    balances: &mut [u64; 1024],
)
    requires accepted { Accepted table.now n }
    requires status_value { threads_sound (table_of table.now) n next.now status.now ≡ true }
    requires balances_value { balances.old ≡ replicate 1024 0 }
    ensures { Balances (table_of table.now) next.now status.now balances.new 0 }
{
    for t in (0..n).rev() {
        let stop = done_to(t, next, status);
        let sum = thread_balance(table, n, t, stop, balances);
        balances[t] = sum;
    }
}

// A child that action a joins has nothing.
fn clear_child(
    table: &[u8],
    n: usize,
    a: usize,
    next: &[u16; 1024],
    status: &[u8; 1024],
    amounts: &mut [u64; 1024],
)
    requires accepted { Accepted table.now n }
    requires a_bound { (a < (table_of table.now).actions) × (done_in (table_of table.now) next.now status.now a ≡ true) }
    requires cleared { Cleared (table_of table.now) next.now status.now amounts.old a }
    ensures { Cleared (table_of table.now) next.now status.now amounts.new (a + 1) }
{
    if let Kind::Join = read::kind(table, n, a) {
        let c = read::argument(table, n, a);
        amounts[c] = 0;
    }
}

// The threads that are joined have nothing.
fn clear_joined(
    table: &[u8],
    n: usize,
    next: &[u16; 1024],
    status: &[u8; 1024],
    amounts: &mut [u64; 1024],
)
    requires accepted { Accepted table.now n }
    requires status_value { threads_sound (table_of table.now) n next.now status.now ≡ true }
    requires balances { Balances (table_of table.now) next.now status.now amounts.old 0 }
    ensures { amounts.new ≡ shares_in (table_of table.now) next.now status.now }
{
    for t in 0..n {
        let stop = done_to(t, next, status);
        for a in read::first(table, t)..stop {
            clear_child(table, n, a, next, status, amounts);
        }
    }
}

// "A record where an amount differs from the thread's balance so far, or from 0 once it is joined, is not sound". The shares are kept in `shares`, whatever it held.
pub(crate) fn amounts_right(
    table: &[u8],
    n: usize,
    next: &[u16; 1024],
    status: &[u8; 1024],
    amounts: &[u64; 1024],
    shares: &mut [u64; 1024],
) -> bool
    requires accepted { Accepted table.now n }
    requires status_value { threads_sound (table_of table.now) n next.now status.now ≡ true }
    ensures { result ≡ same_list amounts.now (shares_in (table_of table.now) next.now status.now) }
{
    *shares = [0; 1024];
    fill_balances(table, n, next, status, shares);
    clear_joined(table, n, next, status, shares);
    *amounts == *shares
}
