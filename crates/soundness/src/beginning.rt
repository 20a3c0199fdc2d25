// The checks of a beginning, the table's own and 20, 21, 44, and what a run begins with.
ghost use Rattle.std.specs.Prelude.{◌≡◌, replicate};
ghost use Rattle.table.specs.Format.{table_of};
ghost use Rattle.table.specs.Rules.{Rules};
ghost use Rattle.table.specs.Pass.{first_found};
ghost use Rattle.schedule.specs.Begin.{setting_passes};
ghost use Rattle.order.specs.Firsts.{firsts};
ghost use Rattle.order.specs.Words.{filled};
ghost use Rattle.soundness.specs.Code.Checks.{Accepted};
ghost use Rattle.soundness.specs.Tested.{parents_in, begin_answer};

use crate::bodies::fill_forks;
use filling::measure;
use table::{Refusal, outside, read};

// 20: "p outside 1 to 16"; 21: "K outside its range".
pub fn settings_fault(p: u8, quota: u32) -> Result<(), Refusal>
    ensures { result ≡ first_found (setting_passes p quota) }
{
    if outside(1, 16, p as usize) {
        return Err(Refusal::new(20, 0));
    }
    if outside(1, 16777215, quota as usize) {
        return Err(Refusal::new(21, 0));
    }
    Ok(())
}

// The table's own checks, then 20, 21 and 44, over any bytes; and how many bytes the filled-out table has, 0 where the table as given runs. The working memory may hold anything, and is
// left cleared.
pub fn begin_fault(
    table: &[u8],
    p: u8,
    quota: u32,
    rises: &mut [u64; 1024],
    falls: &mut [u64; 1024],
) -> Result<usize, Refusal>
    ensures value { result ≡ begin_answer table.now p quota }
    ensures rises_after { (rises.new ≡ replicate 1024 0) × (falls.new ≡ replicate 1024 0) }
{
    if outside(1, 16, p as usize) {
        checks::check_in(table, rises, falls)?;
        return Err(Refusal::new(20, 0));
    }
    measure(table, quota, rises, falls)
}

// Each thread's first action as its next.
pub(crate) fn fill_next(bytes: &[u8], n: usize, next: &mut [u16; 1024])
    requires accepted { Accepted bytes.now n }
    requires next_value { next.old ≡ replicate 1024 0 }
    ensures { next.new ≡ filled 1024 (firsts (table_of bytes.now).first 0 n) }
{
    for t in 0..n {
        next[t] = read::first(bytes, t) as u16;
    }
}

// The next actions and the parents that a run of an accepted table begins with.
pub(crate) fn fill_start(table: &[u8], next: &mut [u16; 1024], parents: &mut [u16; 1024])
    requires rules { Rules table.now }
    requires next_value { (next.old ≡ replicate 1024 0) × (parents.old ≡ replicate 1024 0) }
    ensures next_after { next.new ≡ filled 1024 (firsts (table_of table.now).first 0 (table_of table.now).threads) }
    ensures parents_after { parents.new ≡ parents_in (table_of table.now) }
{
    let n = read::threads(table);
    let mut forks = [0u16; 1024];
    fill_forks(table, n, &mut forks, parents);
    fill_next(table, n, next);
}
