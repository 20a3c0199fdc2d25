// All threads, from the highest down: a child has the higher number, so its peaks are known where its parent is walked.
ghost use Rattle.std.specs.Prelude.{◌≡◌, ◌≤◌};
ghost use Rattle.table.specs.Format.{table_of};
ghost use Rattle.peaks.specs.Peak.{peak_on};
ghost use Rattle.peak_walk.specs.Peaked.{standing};
ghost use Rattle.peak_walk.specs.Code.Walk.{Accepted, Right};

use crate::row::{number, put};
use crate::walk::walk_body;

// Their peaks at load r, and their final balances.
fn fill_load(
    table: &[u8],
    n: usize,
    r: usize,
    resting: bool,
    peaks: &mut [u64],
    finals: &mut [u64],
    rows: &mut [u64],
)
    requires accepted { Accepted table.now n × (r ≤ 16) }
    requires right { Right (table_of table.now) resting peaks.old finals.old rows.old r n }
    ensures { Right (table_of table.now) resting peaks.new finals.new rows.new r 0 }
{
    for t in (0..n).rev() {
        let w = walk_body(table, n, t, r, resting, peaks, finals, rows);
        put(peaks, 17 * t + r, w.best);
        put(finals, t, w.balance);
    }
}

// The root's peak at a load.
pub(crate) fn peak_of(
    table: &[u8],
    n: usize,
    load: usize,
    resting: bool,
    peaks: &mut [u64],
    finals: &mut [u64],
    rows: &mut [u64],
) -> u64
    requires accepted { Accepted table.now n × (load ≤ 16) }
    requires right { Right (table_of table.now) resting peaks.old finals.old rows.old 0 n }
    ensures { result ≡ peak_on (table_of table.now) (standing (table_of table.now) resting) 0 load }
{
    for r in 0..=load {
        fill_load(table, n, r, resting, peaks, finals, rows);
    }
    number(peaks, load)
}
