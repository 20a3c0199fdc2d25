// How many turns a run in rounds takes at most (N8), from a table, p and K: L = p * (m + A + J) of the table that runs, which is not built for it.
#![tactic(auto)]

mod counts;
mod line;

ghost use Rattle.std.specs.Prelude.{◌≡◌, ◌++◌, length, drop, replicate};
ghost use Rattle.io.specs.Counts.{IsPrefixLen};
ghost use Rattle.table.specs.Rules.{Rules};
ghost use Rattle.most.specs.Most.{most_of, most_values_of, most_values_for};
ghost use Rattle.most.specs.Line.{most_to, most_line};
ghost use Rattle.most.specs.Code.Steps.{own_most};

use counts::turns_of;
use filling::count::count;
use line::{answer_line, answer_to};
use table::{Refusal, outside};

// p * (m + A + J) of the table that runs, at most 262,144; refused as a beginning with these is.
pub fn most_turns(table: &[u8], p: u8, quota: u32) -> Result<u32, Refusal>
    ensures value { result ≡ most_of table.now p quota }
    ensures result_value { most_values_of result ≡ most_values_for table.now p quota }
{
    let mut rises = [0u64; 1024];
    let mut falls = [0u64; 1024];
    most_turns_in(table, p, quota, &mut rises, &mut falls)
}

// The same in lent working memory, which may hold anything and is left cleared.
pub fn most_turns_in(
    table: &[u8],
    p: u8,
    quota: u32,
    rises: &mut [u64; 1024],
    falls: &mut [u64; 1024],
) -> Result<u32, Refusal>
    ensures value { result ≡ most_of table.now p quota }
    ensures result_value { most_values_of result ≡ most_values_for table.now p quota }
    ensures rises_after { (rises.new ≡ replicate 1024 0) × (falls.new ≡ replicate 1024 0) }
{
    checks::check_in(table, rises, falls)?;
    turns_for(table, p, quota)
}

// The line that `maxturns` prints, from the bytes that it reads, and its length.
pub fn turns_line(input: &[u8], out: &mut [u8; 80]) -> usize
    ensures value { result ≡ length (most_line (most_to input.now)) }
    ensures out_after { out.new ≡ most_line (most_to input.now) ++ drop result out.old }
    ensures prefix_len { IsPrefixLen result out.new }
{
    answer_line(answer_to(input), out)
}

// Checks 20, 21 and 44 on an accepted table.
fn turns_for(table: &[u8], p: u8, quota: u32) -> Result<u32, Refusal>
    requires { Rules table.now }
    ensures { result ≡ own_most table.now p quota }
{
    if outside(1, 16, p as usize) {
        return Err(Refusal::new(20, 0));
    }
    if outside(1, 16777215, quota as usize) {
        return Err(Refusal::new(21, 0));
    }
    let total = count(table, quota)?;
    Ok((p as u32) * turns_of(table, total))
}
