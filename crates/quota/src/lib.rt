// The largest quota for a board: from a table, p, b and the memory there is.
#![tactic(auto)]

pub mod allocs;
pub mod line;

ghost use Rattle.std.specs.Prelude.{◌≡◌, ◌-◌, ◌*◌, ◌++◌, length, drop, replicate};
ghost use Rattle.io.specs.Counts.{IsPrefixLen};
ghost use Rattle.quota.specs.Quota.{most_within, quoted, values_of, values_for};
ghost use Rattle.quota.specs.Line.{answer_to, quota_line};
ghost use Rattle.quota.specs.Code.Steps.{Ready, Accepted, own_answer};

use allocs::least_quota;
use line::{answer_line, answer_to};
use table::{Facts, Refusal, outside};

// The largest K from the table's largest alloc up to 16,777,215 for which the bound on memory held is at most what there is.
pub fn largest_quota(table: &[u8], p: u8, b: u32, memory: u64) -> Result<u32, Refusal>
    ensures value { result ≡ quoted table.now p b memory }
    ensures result_value { values_of result ≡ values_for table.now p b memory }
{
    let facts = facts::load(table)?;
    quota_for(table, facts, p, b, memory)
}

// The same without recursion, in lent working memory, which may hold anything and is left cleared.
pub fn largest_quota_in(
    table: &[u8],
    p: u8,
    b: u32,
    memory: u64,
    rises: &mut [u64; 1024],
    falls: &mut [u64; 1024],
    peaks: &mut [u64; 1024],
    depths: &mut [u16; 1024],
) -> Result<u32, Refusal>
    ensures value { result ≡ quoted table.now p b memory }
    ensures result_value { values_of result ≡ values_for table.now p b memory }
    ensures rises_after { (rises.new ≡ replicate 1024 0) × (falls.new ≡ replicate 1024 0) × (peaks.new ≡ replicate 1024 0) × (depths.new ≡ replicate 1024 0) }
{
    let facts = facts::load_in(table, rises, falls, peaks, depths)?;
    quota_for(table, facts, p, b, memory)
}

// The line that `maxquota` prints, from the bytes that it reads, and its length.
pub fn quota_line(input: &[u8], out: &mut [u8; 80]) -> usize
    ensures value { result ≡ length (quota_line (answer_to input.now)) }
    ensures out_after { out.new ≡ quota_line (answer_to input.now) ++ drop result out.old }
    ensures prefix_len { IsPrefixLen result out.new }
{
    answer_line(answer_to(input), out)
}

// Checks 20, 41 and 42 on an accepted table.
fn quota_for(table: &[u8], facts: Facts, p: u8, b: u32, memory: u64) -> Result<u32, Refusal>
    requires { Accepted table.now facts }
    ensures { result ≡ own_answer table.now p b memory }
{
    if outside(1, 16, p as usize) {
        return Err(Refusal::new(20, 0));
    }
    if outside(1, 65535, b as usize) {
        return Err(Refusal::new(41, 0));
    }
    let peak = facts.peak;
    if memory < peak {
        return Err(Refusal::new(42, 0));
    }
    let most = most_within(cost(p, b, facts.depth), memory - peak);
    if (most as usize) < least_quota(table) {
        return Err(Refusal::new(42, 0));
    }
    Ok(most)
}

// What each unit of quota adds to the bound, of any numbers of these widths: below 2^56. With b below 2^16, p at most 16 and D at most 8,192 it is below 2^33, and times any K below 2^57.
pub fn cost(p: u8, b: u32, depth: u16) -> u64
    ensures { result ≡ b * (p - 1) * (depth - 1) }
{
    b as u64 * p.saturating_sub(1) as u64 * depth.saturating_sub(1) as u64
}

// How many units of a cost an amount pays for, up to the largest quota of all.
pub fn most_within(cost: u64, spare: u64) -> u32
    ensures { result ≡ most_within cost spare }
{
    if cost == 0 {
        return 16777215;
    }
    (spare / cost).min(16777215) as u32
}
