// The useful limit of a table, and the quota that fits a board by it.
#![tactic(auto)]

mod fit;
mod gather;
mod limit;
pub mod line;

ghost use Rattle.std.specs.Prelude.{◌≡◌, ◌++◌, length, drop, replicate};
ghost use Rattle.io.specs.Counts.{IsPrefixLen};
ghost use Rattle.quota.specs.Code.Steps.{Accepted};
ghost use Rattle.useful_limit.specs.Limits.{limits_in, limits_into};
ghost use Rattle.useful_limit.specs.Fit.{fitted};
ghost use Rattle.useful_limit.specs.Line.{limits_to, limits_line, fitted_to, fitted_line};
ghost use Rattle.useful_limit.specs.Code.Parts.{own_answer};

use fit::fit;
use gather::parts;
use limit::limit_answer;
pub use limit::wide_fault;
use line::{answer_line, answer_to, limit_to, limits_line};
use table::{Facts, Refusal, outside};

// What is said of the table that runs: the useful limit, S1, S_p, the parallel peak, and the most that a stretch draws under K.
#[derive(Clone, Copy, PartialEq, Eq, Debug)]
pub struct Numbers {
    pub memory: u64,
    pub serial: u64,
    pub peak: u64,
    pub parallel: u64,
    pub stretch: u64,
}

// The largest quota and the limit with it; or, where none fits, the quota that needs the least, and how much.
#[derive(Clone, Copy, PartialEq, Eq, Debug)]
pub enum Fitted {
    Fits { quota: u32, memory: u64 },
    Short { quota: u32, memory: u64 },
}

// Of a table, p and b: S1, what each unit of quota adds to demand 3's limit, whether b is 0, S_p, the peak over resting places, the most that a stretch draws under a quota, and the least quota.
// `free` is no flag beside `cost`: with b 0 the cost is 0, and so it is for one worker, where the rule stands.
#[derive(Clone, Copy)]
pub(crate) struct Parts {
    pub(crate) serial: u64,
    pub(crate) cost: u64,
    pub(crate) free: bool,
    pub(crate) peak: u64,
    pub(crate) resting: u64,
    pub(crate) stretch: u64,
    pub(crate) least: u32,
}

// The useful limit of the table that runs, and what it is made of. The table is filled out into the buffer, where it has to be; 36,868 bytes are always enough. The working memory may hold
// anything and is left cleared. Six arrays by themselves and no struct: C lends each.
pub fn limit_in(
    table: &[u8],
    p: u8,
    quota: u32,
    b: u32,
    filled: &mut [u8],
    rises: &mut [u64; 1024],
    falls: &mut [u64; 1024],
    serials: &mut [u64; 1024],
    depths: &mut [u16; 1024],
    peaks: &mut [u64; 17408],
    rows: &mut [u64; 17408],
) -> Result<Numbers, Refusal>
    ensures value { result ≡ limits_in table.now p quota b (length filled.old) }
    ensures filled_after { filled.new ≡ limits_into table.now p quota b filled.old }
    ensures rises_after { (rises.new ≡ replicate 1024 0) × (falls.new ≡ replicate 1024 0) × (serials.new ≡ replicate 1024 0) × (depths.new ≡ replicate 1024 0)
        × (peaks.new ≡ replicate 17408 0) × (rows.new ≡ replicate 17408 0) }
{
    let answer = limit_answer(
        table, p, quota, b, filled, rises, falls, serials, depths, peaks, rows,
    );
    *rises = [0; 1024];
    *falls = [0; 1024];
    *serials = [0; 1024];
    *depths = [0; 1024];
    *peaks = [0; 17408];
    *rows = [0; 17408];
    answer
}

// The largest quota in the range whose useful limit is at most the memory there is, and that limit. The working memory may hold anything and is left cleared.
pub fn fit_in(
    table: &[u8],
    p: u8,
    b: u32,
    memory: u64,
    rises: &mut [u64; 1024],
    falls: &mut [u64; 1024],
    serials: &mut [u64; 1024],
    depths: &mut [u16; 1024],
    peaks: &mut [u64; 17408],
    rows: &mut [u64; 17408],
) -> Result<Fitted, Refusal>
    ensures value { result ≡ fitted table.now p b memory }
    ensures rises_after { (rises.new ≡ replicate 1024 0) × (falls.new ≡ replicate 1024 0) × (serials.new ≡ replicate 1024 0) × (depths.new ≡ replicate 1024 0)
        × (peaks.new ≡ replicate 17408 0) × (rows.new ≡ replicate 17408 0) }
{
    let answer = answer(
        table, p, b, memory, rises, falls, serials, depths, peaks, rows,
    );
    *rises = [0; 1024];
    *falls = [0; 1024];
    *serials = [0; 1024];
    *depths = [0; 1024];
    *peaks = [0; 17408];
    *rows = [0; 17408];
    answer
}

// The line that `memlimit` prints, from the bytes that it reads, and its length.
pub fn limit_line(input: &[u8], out: &mut [u8; 160]) -> usize
    ensures value { result ≡ length (limits_line (limits_to input.now)) }
    ensures out_after { out.new ≡ limits_line (limits_to input.now) ++ drop result out.old }
    ensures prefix_len { IsPrefixLen result out.new }
{
    limits_line(limit_to(input), out)
}

// The line that `fitquota` prints, from the bytes that it reads, and its length.
pub fn fit_line(input: &[u8], out: &mut [u8; 80]) -> usize
    ensures value { result ≡ length (fitted_line (fitted_to input.now)) }
    ensures out_after { out.new ≡ fitted_line (fitted_to input.now) ++ drop result out.old }
    ensures prefix_len { IsPrefixLen result out.new }
{
    answer_line(answer_to(input), out)
}

// The working memory is left as it was used.
fn answer(
    table: &[u8],
    p: u8,
    b: u32,
    memory: u64,
    rises: &mut [u64; 1024],
    falls: &mut [u64; 1024],
    serials: &mut [u64; 1024],
    depths: &mut [u16; 1024],
    peaks: &mut [u64; 17408],
    rows: &mut [u64; 17408],
) -> Result<Fitted, Refusal>
    ensures { result ≡ fitted table.now p b memory }
{
    let facts = facts::load_in(table, rises, falls, serials, depths)?;
    fit_for(table, facts, p, b, memory, rises, falls, peaks, rows)
}

// Checks 20 and 41 on an accepted table.
fn fit_for(
    table: &[u8],
    facts: Facts,
    p: u8,
    b: u32,
    memory: u64,
    rises: &mut [u64; 1024],
    falls: &mut [u64; 1024],
    peaks: &mut [u64; 17408],
    rows: &mut [u64; 17408],
) -> Result<Fitted, Refusal>
    requires { Accepted table.now facts }
    ensures { result ≡ own_answer table.now p b memory }
{
    if outside(1, 16, p as usize) {
        return Err(Refusal::new(20, 0));
    }
    if 65535 < b {
        return Err(Refusal::new(41, 0));
    }
    let parts = parts(table, facts, p, b, 16777215, rises, falls, peaks, rows);
    Ok(fit(parts, memory))
}
