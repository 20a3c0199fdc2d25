// Check 10: no thread's balance falls below 0. A thread's rise and fall, its own and those of the children it joins, are kept for its parent.
ghost use Rattle.std.specs.Prelude.{◌≡◌, ◌<◌};
ghost use Rattle.table.specs.Format.{table_of};
ghost use Rattle.table.specs.declared.kinds.Kind.TheVariants.{Join as join};
ghost use Rattle.table.specs.Pass.{try_pass};
ghost use Rattle.table.specs.Checks.{balance_pass};
ghost use Rattle.table.specs.Code.Steps.{Nested, WalkReady, child_amount};
ghost use Rattle.checks.specs.Code.Steps.{first_next, balance_of};

use table::Refusal;
use table::kinds::Kind;
use table::read::{action_in, body_of, count, first};

// What a body draws and gives back, and its first action after which it has given back more, if there is one.
#[derive(Clone, Copy)]
pub(crate) struct Balance {
    pub(crate) rise: u64,
    pub(crate) fall: u64,
    pub(crate) below: Option<usize>,
}

// The amount of the child x that an action of this kind joins, else 0.
fn child_amount(kind: Kind, x: usize, amounts: &[u64; 1024]) -> u64
    requires { kind ≡ join → x < 1024 }
    ensures { result ≡ child_amount join kind x amounts.now }
{
    match kind {
        Kind::Join => amounts[x],
        _ => 0,
    }
}

// The first of the actions up to i after which the body is overdrawn, from the first of those before i.
fn first_next(before: Option<usize>, overdrawn: bool, i: usize) -> Option<usize>
    ensures { result ≡ first_next before overdrawn i }
{
    if let Some(_) = before {
        return before;
    }
    if overdrawn { Some(i) } else { None }
}

fn balance_walk(body: &[u8], count: usize, rises: &[u64; 1024], falls: &[u64; 1024]) -> Balance
    requires { WalkReady join body.now count rises.now falls.now }
    ensures { result ≡ balance_of body.now rises.now falls.now count }
{
    // count, in a form by which the compiler knows that every action is there
    let stop = count.min(body.len() / 4);
    let mut rise: u64 = 0;
    let mut fall: u64 = 0;
    let mut below = None;
    for i in 0..stop {
        let action = action_in(body, i);
        let kind = action.kind();
        let x = action.argument;
        rise += action.alloc() + child_amount(kind, x, rises);
        fall += action.free() + child_amount(kind, x, falls);
        below = first_next(below, rise < fall, i);
    }
    Balance { rise, fall, below }
}

// The children before their parents: a child has the higher number. The sums are kept in the two arrays, whatever these held.
pub(crate) fn balances(
    table: &[u8],
    n: usize,
    m: usize,
    rises: &mut [u64; 1024],
    falls: &mut [u64; 1024],
) -> Result<(), Refusal>
    requires { Nested table.now n m }
    ensures { result ≡ try_pass (balance_pass (table_of table.now)) }
{
    *rises = [0; 1024];
    *falls = [0; 1024];
    let mut lowest = None;
    for t in (0..n).rev() {
        let first = first(table, t);
        let count = count(table, t);
        let body = body_of(table, n, t);
        let w = balance_walk(body, count, rises, falls);
        rises[t] = w.rise;
        falls[t] = w.fall;
        if let Some(i) = w.below {
            lowest = Some(first + i);
        }
    }
    match lowest {
        Some(a) => Err(Refusal::new(10, a as u16)),
        None => Ok(()),
    }
}
