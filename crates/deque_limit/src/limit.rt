// What `dequelimit` says: the checks in their order, the table that runs, and its numbers.
ghost use Rattle.std.specs.Prelude.{◌≡◌, length, Ok};
ghost use Rattle.table.specs.Format.{table_of};
ghost use Rattle.table.specs.Rules.{Rules};
ghost use Rattle.deque_limit.specs.ChoiceLimit.{bounds_of, choice_limits_in, choice_limits_into};
ghost use Rattle.deque_limit.specs.Asked.{Asked};

use crate::Bounds;
use crate::numbers::numbers;
use filling::fill_in;
use soundness::begin_fault;
use table::{Refusal, outside};
use useful_limit::wide_fault;

// Of the bytes of an accepted table.
fn numbers_for(
    table: &[u8],
    quota: u32,
    c: u32,
    rises: &mut [u64; 1024],
    falls: &mut [u64; 1024],
    serials: &mut [u64; 1024],
    depths: &mut [u16; 1024],
    peaks: &mut [u64; 17408],
    rows: &mut [u64; 17408],
) -> Result<Bounds, Refusal>
    requires { Rules table.now × Asked quota c }
    ensures { result ≡ Ok (bounds_of (table_of table.now) quota c) }
{
    let facts = facts::load_in(table, rises, falls, serials, depths)?;
    Ok(numbers(table, facts, quota, c, rises, falls, peaks, rows))
}

// The working memory is left as it was used.
pub(crate) fn choice_answer(
    table: &[u8],
    p: u8,
    quota: u32,
    c: u32,
    filled: &mut [u8],
    rises: &mut [u64; 1024],
    falls: &mut [u64; 1024],
    serials: &mut [u64; 1024],
    depths: &mut [u16; 1024],
    peaks: &mut [u64; 17408],
    rows: &mut [u64; 17408],
) -> Result<Bounds, Refusal>
    ensures value { result ≡ choice_limits_in table.now p quota c (length filled.old) }
    ensures filled_after { filled.new ≡ choice_limits_into table.now p quota c filled.old }
{
    if outside(1, p as usize, c as usize) {
        return Err(wide_fault(table, p, 49, rises, falls));
    }
    let k = begin_fault(table, p, quota, rises, falls)?;
    if k == 0 {
        return numbers_for(table, quota, c, rises, falls, serials, depths, peaks, rows);
    }
    if filled.len() < k {
        return Err(Refusal::new(61, 0));
    }
    // No check applies.
    let _ = fill_in(table, quota, filled, rises, falls);
    numbers_for(
        &filled[..k],
        quota,
        c,
        rises,
        falls,
        serials,
        depths,
        peaks,
        rows,
    )
}
