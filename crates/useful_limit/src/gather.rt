// The few numbers of an accepted table.
ghost use Rattle.std.specs.Prelude.{◌≡◌, ◌≤◌};
ghost use Rattle.table.specs.Format.{table_of};
ghost use Rattle.table.specs.Rules.{Rules};
ghost use Rattle.peaks.specs.Rests.{resting_peak, parallel_peak};
ghost use Rattle.quota.specs.Code.Steps.{Accepted, Ready};
ghost use Rattle.useful_limit.specs.Code.Parts.{Sums, parts_of};

use crate::Parts;
use peak_walk::along::{rise, stretch};
use peak_walk::{parallel_in, peak_in};
use quota::allocs::least_quota;
use quota::cost;
use table::Facts;

// Over resting places, with what p threads may have drawn since theirs.
fn resting_peak(
    table: &[u8],
    p: u8,
    rises: &mut [u64; 1024],
    falls: &mut [u64; 1024],
    peaks: &mut [u64; 17408],
    rows: &mut [u64; 17408],
) -> u64
    requires { Rules table.now × (1 ≤ p) × (p ≤ 16) }
    ensures { result ≡ resting_peak (table_of table.now) p }
{
    let peak = peak_in(table, p - 1, true, rises, falls, peaks, rows).unwrap_or(0);
    peak + (p as u64) * rise(table)
}

// Every open child at its best.
pub(crate) fn parallel_at(table: &[u8], rises: &mut [u64; 1024], falls: &mut [u64; 1024]) -> u64
    requires { Rules table.now }
    ensures { result ≡ parallel_peak (table_of table.now) }
{
    parallel_in(table, rises, falls).unwrap_or(0)
}

// The stretches draw under a quota.
pub(crate) fn parts(
    table: &[u8],
    facts: Facts,
    p: u8,
    b: u32,
    quota: u32,
    rises: &mut [u64; 1024],
    falls: &mut [u64; 1024],
    peaks: &mut [u64; 17408],
    rows: &mut [u64; 17408],
) -> Parts
    requires { Accepted table.now facts × Ready p b facts.depth }
    ensures value { result ≡ parts_of (table_of table.now) p b quota }
    ensures sums { Sums result }
{
    let peak = peak_in(table, p - 1, false, rises, falls, peaks, rows).unwrap_or(0);
    let resting = resting_peak(table, p, rises, falls, peaks, rows);
    let cost = cost(p, b, facts.depth);
    let stretch = stretch(table, quota);
    let least = least_quota(table) as u32;
    Parts {
        serial: facts.peak,
        cost,
        free: b == 0,
        peak,
        resting,
        stretch,
        least,
    }
}
