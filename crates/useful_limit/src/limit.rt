// What `memlimit` says: the checks in their order, the table that runs, and its numbers.
ghost use Rattle.std.specs.Prelude.{◌≡◌, ◌≤◌, length, replicate, Ok};
ghost use Rattle.table.specs.Format.{table_of};
ghost use Rattle.table.specs.Pass.{first_found};
ghost use Rattle.table.specs.Checks.{outside as is_outside, passes};
ghost use Rattle.table.specs.Rules.{Rules};
ghost use Rattle.quota.specs.Code.Steps.{Accepted, Ready};
ghost use Rattle.useful_limit.specs.Limits.{numbers_of, limits_in, limits_into};
ghost use Rattle.useful_limit.specs.Code.Parts.{Asked, wide_fault};

use crate::Numbers;
use crate::fit::need;
use crate::gather::{parallel_at, parts};
use checks::check_in;
use filling::fill_in;
use soundness::begin_fault;
use table::{Facts, Refusal, outside};

// Of an accepted table.
fn numbers(
    table: &[u8],
    facts: Facts,
    p: u8,
    quota: u32,
    b: u32,
    rises: &mut [u64; 1024],
    falls: &mut [u64; 1024],
    peaks: &mut [u64; 17408],
    rows: &mut [u64; 17408],
) -> Numbers
    requires { Accepted table.now facts × Ready p b facts.depth × (quota ≤ 16777215) }
    ensures { result ≡ numbers_of (table_of table.now) p quota b }
{
    let x = parts(table, facts, p, b, quota, rises, falls, peaks, rows);
    let parallel = parallel_at(table, rises, falls);
    let memory = need(x, quota);
    Numbers {
        memory,
        serial: x.serial,
        peak: x.peak,
        parallel,
        stretch: x.stretch,
    }
}

// Of the bytes of one.
fn numbers_for(
    table: &[u8],
    p: u8,
    quota: u32,
    b: u32,
    rises: &mut [u64; 1024],
    falls: &mut [u64; 1024],
    serials: &mut [u64; 1024],
    depths: &mut [u16; 1024],
    peaks: &mut [u64; 17408],
    rows: &mut [u64; 17408],
) -> Result<Numbers, Refusal>
    requires { Rules table.now × Asked p quota b }
    ensures { result ≡ Ok (numbers_of (table_of table.now) p quota b) }
{
    let facts = facts::load_in(table, rises, falls, serials, depths)?;
    Ok(numbers(table, facts, p, quota, b, rises, falls, peaks, rows))
}

// Where a number behind p is out of its range: the table's own checks, then 20, then that number's. The working memory may hold anything and is left cleared.
pub fn wide_fault(
    table: &[u8],
    p: u8,
    number: u8,
    rises: &mut [u64; 1024],
    falls: &mut [u64; 1024],
) -> Refusal
    ensures value { result ≡ wide_fault (first_found (passes table.now)) (is_outside 1 16 p) number }
    ensures rises_after { (rises.new ≡ replicate 1024 0) × (falls.new ≡ replicate 1024 0) }
{
    let found = check_in(table, rises, falls);
    if let Err(r) = found {
        return r;
    }
    if outside(1, 16, p as usize) {
        return Refusal::new(20, 0);
    }
    Refusal::new(number, 0)
}

// The working memory is left as it was used.
pub(crate) fn limit_answer(
    table: &[u8],
    p: u8,
    quota: u32,
    b: u32,
    filled: &mut [u8],
    rises: &mut [u64; 1024],
    falls: &mut [u64; 1024],
    serials: &mut [u64; 1024],
    depths: &mut [u16; 1024],
    peaks: &mut [u64; 17408],
    rows: &mut [u64; 17408],
) -> Result<Numbers, Refusal>
    ensures value { result ≡ limits_in table.now p quota b (length filled.old) }
    ensures filled_after { filled.new ≡ limits_into table.now p quota b filled.old }
{
    if 65535 < b {
        return Err(wide_fault(table, p, 41, rises, falls));
    }
    let k = begin_fault(table, p, quota, rises, falls)?;
    if k == 0 {
        return numbers_for(
            table, p, quota, b, rises, falls, serials, depths, peaks, rows,
        );
    }
    if filled.len() < k {
        return Err(Refusal::new(61, 0));
    }
    // No check applies.
    let _ = fill_in(table, quota, filled, rises, falls);
    numbers_for(
        &filled[..k],
        p,
        quota,
        b,
        rises,
        falls,
        serials,
        depths,
        peaks,
        rows,
    )
}
