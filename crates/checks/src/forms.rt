// Checks 5 to 7: each action's kind, argument and place in its body.
ghost use Rattle.std.specs.Prelude.{◌≡◌, ◌&&◌, ltb};
ghost use Rattle.table.specs.Format.{table_of};
ghost use Rattle.table.specs.Pass.{try_pass};
ghost use Rattle.table.specs.Checks.{argument_fits, first_pass};
ghost use Rattle.table.specs.Code.Steps.{Laid};
ghost use Rattle.checks.specs.Code.Steps.{form_at, Reached, Holding};

use table::Refusal;
use table::kinds::Kind;
use table::read::{action_in, bodies, count};

// A thread number above the thread's own and below n.
fn is_child(own: usize, n: usize, x: usize) -> bool
    ensures { result ≡ (ltb own x && ltb x n) }
{
    own < x && x < n
}

// 6: "argument against the kind's rule"; a kind that is none has no rule.
fn argument_fits(kind: Kind, own: usize, n: usize, x: usize) -> bool
    ensures { result ≡ argument_fits kind own n x }
{
    match kind {
        Kind::End | Kind::Work => x == 0,
        Kind::Alloc | Kind::Free => 1 <= x,
        Kind::Fork | Kind::Join => is_child(own, n, x),
        Kind::Unknown => true,
    }
}

// The check that an action breaks, if it breaks one. One test after the other: one match on all kinds would be a jump through a table for every action.
fn form_at(kind: Kind, own: usize, n: usize, x: usize, last: bool) -> Option<u8>
    ensures { result ≡ form_at kind own n x last }
{
    if kind == Kind::Unknown {
        return Some(5);
    }
    if !argument_fits(kind, own, n, x) {
        return Some(6);
    }
    let end = kind == Kind::End;
    if end != last { Some(7) } else { None }
}

// The thread in whose body an action lies, and where that body ends.
#[derive(Clone, Copy)]
struct Span {
    own: usize,
    stop: usize,
}

// The span that holds action a, from the one that has just been walked up to it.
fn span_at(table: &[u8], n: usize, m: usize, at: Span, a: usize) -> Span
    requires laid { Laid table.now n m }
    requires reached { Reached (table_of table.now) at.own at.stop a }
    ensures { Holding (table_of table.now) result.own result.stop a }
{
    let own = at.own;
    let stop = at.stop;
    if a < stop {
        return at;
    }
    let next = own + 1;
    Span {
        own: next,
        stop: stop + count(table, next),
    }
}

pub(crate) fn first_pass(table: &[u8], n: usize, m: usize) -> Result<(), Refusal>
    requires { Laid table.now n m }
    ensures { result ≡ try_pass (first_pass (table_of table.now)) }
{
    let actions = bodies(table, n);
    // m, in a form by which the compiler knows that every action is there
    let stop = m.min(actions.len() / 4);
    let mut span = Span {
        own: 0,
        stop: count(table, 0),
    };
    for a in 0..stop {
        span = span_at(table, n, m, span, a);
        let action = action_in(actions, a);
        let last = a + 1 == span.stop;
        let broken = form_at(action.kind(), span.own, n, action.argument, last);
        if let Some(number) = broken {
            return Err(Refusal::new(number, a as u16));
        }
    }
    Ok(())
}
