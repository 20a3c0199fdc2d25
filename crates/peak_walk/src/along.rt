// What is read off the actions one by one, for any bytes: the largest draw of a stretch, and R.
ghost use Rattle.std.specs.Prelude.{◌≡◌, ◌+◌, ◌<◌, ◌||◌};
ghost use Rattle.table.specs.Sum.{pick};
ghost use Rattle.table.specs.Format.{is, table_of};
ghost use Rattle.table.specs.declared.kinds.Kind.TheVariants.{End as end, Fork as fork};
ghost use Rattle.schedule.specs.Machine.{drawn};
ghost use Rattle.peaks.specs.Rests.{stretch as stretch_of};
ghost use Rattle.peak_walk.specs.Along.{rise_along};

use crate::walk::may_after;
use table::kinds::Kind;
use table::read;

// A sum that starts again.
fn since(again: bool, sum: u64, x: u64) -> u64
    requires { sum + x < 18446744073709551616 }
    ensures { result ≡ pick again 0 (sum + x) }
{
    if again { 0 } else { sum + x }
}

// A stretch ends with an end or a fork.
#[tactic(auto, unfolding(table::specs::Format::is, table::specs::Format::code_of))]
fn ends_stretch(kind: Kind) -> bool
    ensures { result ≡ (is end kind || is fork kind) }
{
    matches!(kind, Kind::End | Kind::Fork)
}

// What an alloc of x takes from the quota.
fn drawn_of(quota: u32, x: u64) -> u64
    ensures { result ≡ drawn quota x }
{
    if (quota as u64) < x { 0 } else { x }
}

// The most that a stretch draws under a quota.
pub fn stretch(table: &[u8], quota: u32) -> u64
    ensures { result ≡ stretch_of (table_of table.now) quota }
{
    let actions = read::bodies(table, read::threads(table));
    let m = read::actions(table);
    let mut best = 0u64;
    let mut before = 0;
    for a in 0..m {
        let action = read::action_in(actions, a);
        let x = drawn_of(quota, action.alloc());
        best = best.max(before + x);
        before = since(ends_stretch(action.kind()), before, x);
    }
    best
}

// The most that a thread's own allocs less frees rise from a resting place on.
pub fn rise(table: &[u8]) -> u64
    ensures { result ≡ rise_along (table_of table.now) }
{
    let actions = read::bodies(table, read::threads(table));
    let m = read::actions(table);
    let mut best = 0u64;
    let mut up = 0u64;
    let mut down = 0u64;
    for a in 0..m {
        best = best.max(up.saturating_sub(down));
        let action = read::action_in(actions, a);
        let rests = may_after(actions, true, a);
        up = since(rests, up, action.alloc());
        down = since(rests, down, action.free());
    }
    best
}
