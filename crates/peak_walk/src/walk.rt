// The walk over one body.
ghost use Rattle.std.specs.Prelude.{◌≡◌, suc, ◌-◌, ◌<◌, ◌≤◌};
ghost use Rattle.table.specs.Format.{kind_of, code_at, argument_at, bodies_from, table_of};
ghost use Rattle.peak_walk.specs.Code.Walk.{Small, balance_after, depth_after, rows_after, extra_after, walk as walk_of, stepped, may_after, walked};

use crate::row::{number, push_row, row_greatest};
use table::kinds::Kind;
use table::read::{self, Action};

// The thread's balance so far, the best of its places so far, and how many of its children are open.
#[derive(Drop)]
pub(crate) struct Walk {
    pub(crate) balance: u64,
    pub(crate) best: u64,
    pub(crate) depth: usize,
}

#[tactic(auto, unfolding(crate::specs::Code::Walk::balance_after, table::specs::Format::is, table::specs::Format::code_of))]
pub(crate) fn balance_after(finals: &[u64], kind: Kind, x: usize, balance: u64) -> u64
    requires { x < 16777216 }
    ensures { result ≡ balance_after finals.now kind x balance }
{
    match kind {
        Kind::Alloc => balance.wrapping_add(x as u64),
        Kind::Free => balance.saturating_sub(x as u64),
        Kind::Join => balance.wrapping_add(number(finals, x)),
        Kind::End | Kind::Work | Kind::Fork | Kind::Unknown => balance,
    }
}

#[tactic(auto, unfolding(crate::specs::Code::Walk::depth_after, table::specs::Format::is, table::specs::Format::code_of))]
fn depth_after(kind: Kind, d: usize) -> usize
    requires { d ≤ 65536 }
    ensures { result ≡ depth_after kind d }
{
    match kind {
        Kind::Fork => d + 1,
        Kind::Join => d.saturating_sub(1),
        Kind::End | Kind::Work | Kind::Alloc | Kind::Free | Kind::Unknown => d,
    }
}

// A forked child's row is written.
#[tactic(auto, unfolding(crate::specs::Code::Walk::rows_after, table::specs::Format::is, table::specs::Format::code_of))]
fn rows_after(
    peaks: &[u64],
    finals: &[u64],
    rows: &mut [u64],
    r: usize,
    kind: Kind,
    x: usize,
    d: usize,
)
    requires { Small r x d }
    ensures { rows.new ≡ rows_after peaks.now finals.now r kind x d rows.old }
{
    if matches!(kind, Kind::Fork) {
        push_row(peaks, finals, rows, r, x, d);
    }
}

// Right after a fork one child more may be unended.
#[tactic(auto, unfolding(crate::specs::Code::Walk::extra_after, table::specs::Format::is, table::specs::Format::code_of))]
fn extra_after(peaks: &[u64], rows: &[u64], r: usize, kind: Kind, x: usize, d: usize) -> u64
    requires { Small r x d }
    ensures { result ≡ extra_after peaks.now r kind x d rows.now }
{
    if !matches!(kind, Kind::Fork) {
        return 0;
    }
    number(peaks, 17 * x).wrapping_add(number(rows, 17 * d + r))
}

// One action, to a place where the thread may stand or may not.
fn step(
    peaks: &[u64],
    finals: &[u64],
    rows: &mut [u64],
    r: usize,
    may: bool,
    action: Action,
    w: Walk,
) -> Walk
    requires { Small r action.argument (suc w.depth) }
    ensures { walk_of result.balance result.best result.depth rows.new
        ≡ stepped peaks.now finals.now r may (kind_of action.code) action.argument (walk_of w.balance w.best w.depth rows.old) }
{
    let kind = action.kind();
    let x = action.argument;
    let d = w.depth;
    let last = w.best;
    let balance = balance_after(finals, kind, x, w.balance);
    let extra = extra_after(peaks, rows, r, kind, x, d);
    rows_after(peaks, finals, rows, r, kind, x, d);
    let depth = depth_after(kind, d);
    if !may {
        return Walk {
            balance,
            best: last,
            depth,
        };
    }
    let most = row_greatest(rows, r, depth).max(extra);
    let best = last.max(balance.wrapping_add(most));
    Walk {
        balance,
        best,
        depth,
    }
}

// The place after action a counts: it is a resting place, or all do.
#[tactic(auto, unfolding(crate::specs::Code::Walk::may_after, table::specs::Format::is, table::specs::Format::code_of))]
pub(crate) fn may_after(actions: &[u8], resting: bool, a: usize) -> bool
    requires { a < 131072 }
    ensures { result ≡ may_after (code_at actions.now) resting a }
{
    if !resting {
        return true;
    }
    match read::action_in(actions, a).kind() {
        Kind::End | Kind::Fork => true,
        Kind::Work | Kind::Alloc | Kind::Free | Kind::Join | Kind::Unknown => {
            matches!(read::action_in(actions, a + 1).kind(), Kind::Join)
        }
    }
}

// Thread t's body, at load r.
pub(crate) fn walk_body(
    table: &[u8],
    n: usize,
    t: usize,
    r: usize,
    resting: bool,
    peaks: &[u64],
    finals: &[u64],
    rows: &mut [u64],
) -> Walk
    requires { r ≤ 16 }
    ensures { walk_of result.balance result.best result.depth rows.new
        ≡ walked (code_at (bodies_from table.now n)) (argument_at (bodies_from table.now n)) resting peaks.now finals.now r
        ((table_of table.now).first t) rows.old ((table_of table.now).count t) }
{
    let first = read::first(table, t);
    let count = read::count(table, t);
    let actions = read::bodies(table, n);
    let mut w = Walk {
        balance: 0,
        best: 0,
        depth: 0,
    };
    for i in 0..count {
        let a = first + i;
        let may = may_after(actions, resting, a);
        let action = read::action_in(actions, a);
        w = step(peaks, finals, rows, r, may, action, w);
    }
    w
}
