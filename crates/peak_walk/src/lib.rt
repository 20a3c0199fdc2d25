// The peak of a table at a load of up to 16, S_p at load p - 1, and the parallel peak, in lent working memory and without recursion.
#![tactic(auto)]

pub mod along;
mod fill;
mod parallel;
mod row;
mod walk;

ghost use Rattle.std.specs.Prelude.{◌≡◌, replicate};
ghost use Rattle.peak_walk.specs.Peaked.{peaked, paralleled};

use checks::check_in;
use fill::peak_of;
use parallel::best_of;
use table::Refusal;
use table::read::threads;

// Over all places, or over resting places alone. The working memory may hold anything and is left cleared. Rows lie in flat arrays: C lends them, and there is no heap.
pub fn peak_in(
    table: &[u8],
    load: u8,
    resting: bool,
    rises: &mut [u64; 1024],
    falls: &mut [u64; 1024],
    peaks: &mut [u64; 17408],
    rows: &mut [u64; 17408],
) -> Result<u64, Refusal>
    ensures value { result ≡ peaked table.now load resting }
    ensures rises_after { (rises.new ≡ replicate 1024 0) × (falls.new ≡ replicate 1024 0) × (peaks.new ≡ replicate 17408 0) × (rows.new ≡ replicate 17408 0) }
{
    let answer = answer(table, load, resting, rises, falls, peaks, rows);
    *rises = [0; 1024];
    *falls = [0; 1024];
    *peaks = [0; 17408];
    *rows = [0; 17408];
    answer
}

// The working memory is left as it was used.
fn answer(
    table: &[u8],
    load: u8,
    resting: bool,
    rises: &mut [u64; 1024],
    falls: &mut [u64; 1024],
    peaks: &mut [u64; 17408],
    rows: &mut [u64; 17408],
) -> Result<u64, Refusal>
    ensures { result ≡ peaked table.now load resting }
{
    check_in(table, rises, falls)?;
    if 16 < load {
        return Err(Refusal::new(20, 0));
    }
    *rises = [0; 1024];
    *peaks = [0; 17408];
    *rows = [0; 17408];
    let n = threads(table);
    Ok(peak_of(
        table,
        n,
        load as usize,
        resting,
        &mut peaks[..],
        &mut rises[..],
        &mut rows[..],
    ))
}

// The parallel peak: every open child at its best. The working memory may hold anything and is left cleared.
pub fn parallel_in(
    table: &[u8],
    rises: &mut [u64; 1024],
    falls: &mut [u64; 1024],
) -> Result<u64, Refusal>
    ensures value { result ≡ paralleled table.now }
    ensures rises_after { (rises.new ≡ replicate 1024 0) × (falls.new ≡ replicate 1024 0) }
{
    check_in(table, rises, falls)?;
    let peak = best_of(table, threads(table), &mut rises[..], &mut falls[..]);
    *rises = [0; 1024];
    *falls = [0; 1024];
    Ok(peak)
}
