// The parallel peak: all threads from the highest down, each with its open children at their best.
ghost use Rattle.std.specs.Prelude.{◌≡◌, ◌<◌};
ghost use Rattle.table.specs.Format.{kind_of, code_at, argument_at, bodies_from, table_of};
ghost use Rattle.peaks.specs.Rests.{parallel_peak};
ghost use Rattle.peak_walk.specs.Code.Walk.{Accepted};
ghost use Rattle.peak_walk.specs.Code.Parallel.{children_after, pass, passed_on, passed, Bests};

use crate::row::{number, put};
use crate::walk::balance_after;
use table::kinds::Kind;
use table::read::{self, Action};

// The thread's balance so far, its open children at their best, and the most of its places so far.
#[derive(Drop)]
struct Pass {
    balance: u64,
    children: u64,
    most: u64,
}

#[tactic(auto, unfolding(crate::specs::Code::Parallel::children_after, table::specs::Format::is, table::specs::Format::code_of))]
fn children_after(bests: &[u64], kind: Kind, x: usize, children: u64) -> u64
    ensures { result ≡ children_after bests.now kind x children }
{
    match kind {
        Kind::Fork => children.wrapping_add(number(bests, x)),
        Kind::Join => children.saturating_sub(number(bests, x)),
        Kind::End | Kind::Work | Kind::Alloc | Kind::Free | Kind::Unknown => { children }
    }
}

// One action.
fn pass_on(bests: &[u64], finals: &[u64], action: Action, w: Pass) -> Pass
    requires { action.argument < 16777216 }
    ensures { pass result.balance result.children result.most
        ≡ passed_on bests.now finals.now (kind_of action.code) action.argument (pass w.balance w.children w.most) }
{
    let kind = action.kind();
    let x = action.argument;
    let balance = balance_after(finals, kind, x, w.balance);
    let children = children_after(bests, kind, x, w.children);
    let most = w.most.max(balance.wrapping_add(children));
    Pass {
        balance,
        children,
        most,
    }
}

// Thread t's body.
fn pass_body(table: &[u8], n: usize, t: usize, bests: &[u64], finals: &[u64]) -> Pass
    ensures { pass result.balance result.children result.most
        ≡ passed (code_at (bodies_from table.now n)) (argument_at (bodies_from table.now n)) bests.now finals.now
        ((table_of table.now).first t) ((table_of table.now).count t) }
{
    let first = read::first(table, t);
    let count = read::count(table, t);
    let actions = read::bodies(table, n);
    let mut w = Pass {
        balance: 0,
        children: 0,
        most: 0,
    };
    for i in 0..count {
        let action = read::action_in(actions, first + i);
        w = pass_on(bests, finals, action, w);
    }
    w
}

// The root's best.
pub(crate) fn best_of(table: &[u8], n: usize, bests: &mut [u64], finals: &mut [u64]) -> u64
    requires accepted { Accepted table.now n }
    requires bests { Bests (table_of table.now) bests.old finals.old n }
    ensures { result ≡ parallel_peak (table_of table.now) }
{
    for t in (0..n).rev() {
        let w = pass_body(table, n, t, bests, finals);
        put(bests, t, w.most);
        put(finals, t, w.balance);
    }
    number(bests, 0)
}
