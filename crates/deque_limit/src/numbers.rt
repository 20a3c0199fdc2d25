// The two numbers of an accepted table.
ghost use Rattle.std.specs.Prelude.{◌≡◌, ◌+◌, ◌-◌, ◌*◌, ◌≤◌};
ghost use Rattle.table.specs.Format.{table_of};
ghost use Rattle.quota.specs.Code.Steps.{Accepted};
ghost use Rattle.deque_limit.specs.ChoiceLimit.{near_limit, bounds_of};
ghost use Rattle.deque_limit.specs.Asked.{Asked, Small};

use crate::Bounds;
use peak_walk::peak_in;
use quota::allocs::least_quota;
use table::Facts;

// S1 + K · (N − 1).
fn ruled(serial: u64, quota: u32, nested: u16) -> u64
    requires { Small serial quota nested }
    ensures { result ≡ serial + quota * (nested - 1) }
{
    serial + (quota as u64) * ((nested - 1) as u64)
}

// Where every choice is 0.
fn near_at(
    table: &[u8],
    facts: Facts,
    quota: u32,
    rises: &mut [u64; 1024],
    falls: &mut [u64; 1024],
    peaks: &mut [u64; 17408],
    rows: &mut [u64; 17408],
) -> u64
    requires { Accepted table.now facts × (1 ≤ quota) × (quota ≤ 16777215) }
    ensures { result ≡ near_limit (table_of table.now) quota }
{
    let peak = peak_in(table, 1, false, rises, falls, peaks, rows).unwrap_or(0);
    if (quota as usize) < least_quota(table) {
        return peak;
    }
    peak.min(ruled(facts.peak, quota, facts.nested))
}

pub(crate) fn numbers(
    table: &[u8],
    facts: Facts,
    quota: u32,
    c: u32,
    rises: &mut [u64; 1024],
    falls: &mut [u64; 1024],
    peaks: &mut [u64; 17408],
    rows: &mut [u64; 17408],
) -> Bounds
    requires { Accepted table.now facts × Asked quota c }
    ensures { result ≡ bounds_of (table_of table.now) quota c }
{
    let near = near_at(table, facts, quota, rises, falls, peaks, rows);
    if c == 1 {
        return Bounds { memory: near, near };
    }
    let memory = peak_in(table, c as u8, false, rises, falls, peaks, rows).unwrap_or(0);
    Bounds { memory, near }
}
