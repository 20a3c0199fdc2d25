// The number of nested thread levels N: a forked thread is one level below the thread that forks it.
ghost use Rattle.std.specs.Prelude.{◌≡◌, suc, max, ◌<◌, ◌≤◌, set};
ghost use Rattle.table.specs.Sum.{pick};
ghost use Rattle.table.specs.Format.{is, table_of};
ghost use Rattle.table.specs.declared.kinds.Kind.TheVariants.{End as end, Fork as fork};
ghost use Rattle.table.specs.Nested.{N};
ghost use Rattle.table.specs.Code.Steps.{Nested};

use table::kinds::Kind;
use table::read::{action_in, bodies};

// One action of a thread: if it forks c, c is one level below the thread's. The deepest level so far.
fn fork_level(kind: Kind, c: usize, level: usize, deepest: usize, levels: &mut [u16; 1024]) -> usize
    requires { (level ≤ 1024) × (kind ≡ fork → c < 1024) }
    ensures value { result ≡ pick (is fork kind) (max deepest (suc level)) deepest }
    ensures levels_after { levels.new ≡ pick (is fork kind) (set levels.old c (suc level)) levels.old }
{
    match kind {
        Kind::Fork => {
            let below = level + 1;
            levels[c] = below as u16;
            deepest.max(below)
        }
        _ => deepest,
    }
}

// The thread of the action after one of thread t: bodies follow each other, and an end is the last of its body.
fn next_thread(kind: Kind, t: usize) -> usize
    requires { t < 1024 }
    ensures { result ≡ pick (is end kind) (suc t) t }
{
    match kind {
        Kind::End => t + 1,
        _ => t,
    }
}

// A child's number is above its parent's, so a thread's level is known where its body begins. What the memory held does not matter.
pub(crate) fn nested_levels(table: &[u8], n: usize, m: usize, levels: &mut [u16; 1024]) -> usize
    requires { Nested table.now n m }
    ensures { result ≡ N (table_of table.now) }
{
    let actions = bodies(table, n);
    // m, in a form by which the compiler knows that every action is there
    let stop = m.min(actions.len() / 4);
    *levels = [1; 1024];
    let mut deepest = 1;
    let mut t = 0;
    for a in 0..stop {
        let action = action_in(actions, a);
        let kind = action.kind();
        let c = action.argument;
        let level = levels[t] as usize;
        deepest = fork_level(kind, c, level, deepest, levels);
        t = next_thread(kind, t);
    }
    deepest
}
