// The depth D: a thread's end level, given its start level, and the walk over its actions call each other.
ghost use Rattle.std.specs.Prelude.{◌≡◌, ◌<◌, ◌≤◌, get_or};
ghost use Rattle.table.specs.Format.{table_of, body_of};
ghost use Rattle.table.specs.declared.kinds.Kind.TheVariants.{Join as join};
ghost use Rattle.table.specs.Level.{D};
ghost use Rattle.facts.specs.Code.Steps.{Kept, Starts, EndLevels, Walked, next_level};

use table::kinds::Kind;
use table::read::{action_in, body_of, count};

// A thread's end level, given the level of its first action. `ends` has the end levels found so far, 0 where none is.
#[cycle(end_level_walk)]
fn end_level(
    table: &[u8],
    n: usize,
    m: usize,
    t: usize,
    start: usize,
    ends: &mut [usize; 1024],
) -> usize
    requires starts { Starts table.now n m t start }
    requires end_levels { EndLevels (table_of table.now) ends.old }
    ensures { Walked (table_of table.now) t ends.old result ends.new }
{
    let body = body_of(table, n, t);
    let count = count(table, t);
    walk(table, n, m, t, body, count, start, ends)
}

// The level of a body's last action. A join comes after its child's end too, whose level was found at the fork.
#[cycle(end_level_walk)]
fn walk(
    table: &[u8],
    n: usize,
    m: usize,
    t: usize,
    body: &[u8],
    count: usize,
    start: usize,
    ends: &mut [usize; 1024],
) -> usize
    requires starts { Starts table.now n m t start }
    requires body_value { (body.now ≡ body_of table.now t) × (count ≡ (table_of table.now).count t) }
    requires end_levels { EndLevels (table_of table.now) ends.old }
    ensures { Walked (table_of table.now) t ends.old result ends.new }
{
    let mut last = start - 1;
    for i in 0..count {
        let action = action_in(body, i);
        let kind = action.kind();
        let x = action.argument;
        last = next_level(kind, x, last, ends);
        if let Kind::Fork = kind {
            let end = end_level(table, n, m, x, last + 1, ends);
            ends[x] = end;
        }
    }
    last
}

// The level of an action after one of level `last`.
fn next_level(kind: Kind, x: usize, last: usize, ends: &[usize; 1024]) -> usize
    requires { (last < 8192) × (kind ≡ join → (x < 1024) × (get_or ends.now x 0 ≤ 8192)) }
    ensures { result ≡ next_level kind x last ends.now }
{
    match kind {
        Kind::Join => last.max(ends[x]) + 1,
        _ => last + 1,
    }
}

pub(crate) fn depth(table: &[u8], n: usize, m: usize) -> usize
    requires { Kept table.now n m }
    ensures { result ≡ D (table_of table.now) }
{
    let mut ends = [0usize; 1024];
    end_level(table, n, m, 0, 1, &mut ends)
}
