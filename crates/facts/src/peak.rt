// The serial peak S1, and what is left: each thread's highest amount, counted from its start, from those of the children it forks.
ghost use Rattle.std.specs.Prelude.{◌≡◌, ◌<◌};
ghost use Rattle.table.specs.Sum.{sum_to, greatest_to};
ghost use Rattle.table.specs.Format.{table_of};
ghost use Rattle.table.specs.declared.kinds.Kind.TheVariants.{Alloc as alloc, Free as free, Fork as fork};
ghost use Rattle.table.specs.Serial.{S1};
ghost use Rattle.table.specs.Code.Steps.{WalkReady, child_amount, amount_at};
ghost use Rattle.facts.specs.Code.Steps.{Kept, PeaksReady, top_of};
ghost use Rattle.facts.specs.Weigh.{left_of};

use table::kinds::Kind;
use table::read::{action_in, body_of, count};

// What a body draws and gives back with the children it forks, and the highest that it holds, counted from its start.
#[derive(Clone, Copy)]
struct Walk {
    rise: u64,
    fall: u64,
    peak: u64,
}

// The amount of the child x that an action of this kind forks, else 0.
fn child_amount(kind: Kind, x: usize, amounts: &[u64; 1024]) -> u64
    requires { kind ≡ fork → x < 1024 }
    ensures { result ≡ child_amount fork kind x amounts.now }
{
    match kind {
        Kind::Fork => amounts[x],
        _ => 0,
    }
}

// Over one body: what is held before an action, and while a child forked there runs.
fn peak_walk(
    body: &[u8],
    count: usize,
    rises: &[u64; 1024],
    falls: &[u64; 1024],
    peaks: &[u64; 1024],
) -> Walk
    requires walk_ready { WalkReady fork body.now count rises.now falls.now }
    requires peaks_ready { PeaksReady body.now count rises.now falls.now peaks.now }
    ensures rise_value { result.rise ≡ sum_to (amount_at alloc fork body.now rises.now) count }
    ensures fall_value { result.fall ≡ sum_to (amount_at free fork body.now falls.now) count }
    ensures peak_value { result.peak ≡ greatest_to (top_of body.now rises.now falls.now peaks.now) count }
{
    // count, in a form by which the compiler knows that every action is there
    let stop = count.min(body.len() / 4);
    let mut rise: u64 = 0;
    let mut fall: u64 = 0;
    let mut peak: u64 = 0;
    for i in 0..stop {
        let action = action_in(body, i);
        let kind = action.kind();
        let x = action.argument;
        peak = peak.max(rise - fall + child_amount(kind, x, peaks));
        rise += action.alloc() + child_amount(kind, x, rises);
        fall += action.free() + child_amount(kind, x, falls);
    }
    Walk { rise, fall, peak }
}

// What the serial run holds at most and at its end.
#[derive(Clone, Copy)]
pub(crate) struct Amounts {
    pub(crate) peak: u64,
    pub(crate) left: u64,
}

// The children before their parents: a child has the higher number. What the memory held does not matter.
pub(crate) fn serial_amounts(
    table: &[u8],
    n: usize,
    m: usize,
    rises: &mut [u64; 1024],
    falls: &mut [u64; 1024],
    peaks: &mut [u64; 1024],
) -> Amounts
    requires { Kept table.now n m }
    ensures peak_value { result.peak ≡ S1 (table_of table.now) }
    ensures left_value { result.left ≡ left_of (table_of table.now) }
{
    *rises = [0; 1024];
    *falls = [0; 1024];
    *peaks = [0; 1024];
    for t in (0..n).rev() {
        let body = body_of(table, n, t);
        let count = count(table, t);
        let w = peak_walk(body, count, rises, falls, peaks);
        rises[t] = w.rise;
        falls[t] = w.fall;
        peaks[t] = w.peak;
    }
    Amounts {
        peak: peaks[0],
        left: rises[0] - falls[0],
    }
}
