// Several designs as one table: a new root over the parts, and its facts from the parts alone.
#![tactic(auto)]

mod given;

pub use given::{join_given, join_line, joined_size};

mod split;
mod weights;
mod write;

ghost use Rattle.std.specs.Prelude.{◌≡◌, ◌≤◌, ◌||◌, ltb, length, replicate};
ghost use Rattle.table.specs.Checks.{max_threads, max_actions};
ghost use Rattle.joining.specs.Joining.{joined_bytes};
ghost use Rattle.joining.specs.Answers.{parts_of, joined_with, left_by, joined, joined_in, join_values, join_values_of};
ghost use Rattle.joining.specs.Code.Steps.{Lent, AllWeighed, facts_from};

use split::parts_wrong;
use table::{Facts, Refusal};
use weights::{Totals, weigh_parts};
use write::put_joined;

// Why there is no joined table: a refusal of the parts as a whole; or a part's own refusal, the parts counted from 0.
#[derive(Clone, Copy)]
pub enum JoinError {
    Whole(Refusal),
    InPart(usize, Refusal),
}

// The facts of tables that are lent back to back, with their lengths, as one table at the start of the buffer, which is as it was where there is a refusal.
pub fn join(tables: &[u8], lengths: &[u32], out: &mut [u8; 36868]) -> Result<Facts, JoinError>
    ensures value { result ≡ joined lengths.now tables.now }
    ensures result_value { join_values_of result ≡ join_values lengths.now tables.now }
    ensures out_after { out.new ≡ joined_in lengths.now tables.now out.old }
{
    let mut rises = [0u64; 1024];
    let mut falls = [0u64; 1024];
    let mut peaks = [0u64; 1024];
    let mut depths = [0u16; 1024];
    join_in(
        tables,
        lengths,
        out,
        &mut rises,
        &mut falls,
        &mut peaks,
        &mut depths,
    )
}

// The same in lent working memory (C lends it, and the parts as two lists), which may hold anything and is left cleared.
pub fn join_in(
    tables: &[u8],
    lengths: &[u32],
    out: &mut [u8; 36868],
    rises: &mut [u64; 1024],
    falls: &mut [u64; 1024],
    peaks: &mut [u64; 1024],
    depths: &mut [u16; 1024],
) -> Result<Facts, JoinError>
    ensures value { result ≡ joined lengths.now tables.now }
    ensures result_value { join_values_of result ≡ join_values lengths.now tables.now }
    ensures out_after { out.new ≡ joined_in lengths.now tables.now out.old }
    ensures rises_after { (rises.new ≡ replicate 1024 0) × (falls.new ≡ replicate 1024 0) × (peaks.new ≡ replicate 1024 0) × (depths.new ≡ replicate 1024 0) }
{
    *rises = [0; 1024];
    *falls = [0; 1024];
    *peaks = [0; 1024];
    *depths = [0; 1024];
    if parts_wrong(tables, lengths) {
        return Err(JoinError::Whole(Refusal {
            number: 47,
            place: 0,
        }));
    }
    let totals = weigh_parts(tables, lengths, rises, falls, peaks, depths)?;
    join_parts(tables, lengths, totals, out)
}

// Check 48.
fn too_large(n: usize, m: usize) -> bool
    ensures { result ≡ (ltb max_threads n || ltb max_actions m) }
{
    1024 < n || 8192 < m
}

// Accepted parts.
fn join_parts(
    tables: &[u8],
    lengths: &[u32],
    totals: Totals,
    out: &mut [u8],
) -> Result<Facts, JoinError>
    requires { Lent lengths.now tables.now × AllWeighed (parts_of lengths.now tables.now) totals × (36868 ≤ length out.old) }
    ensures value { result ≡ joined_with (facts_from (length lengths.now) totals) }
    ensures out_after { out.new ≡ left_by result (joined_bytes (parts_of lengths.now tables.now)) out.old }
{
    let n = 1 + totals.threads as usize;
    let m = 2 * lengths.len() + 1 + totals.actions as usize;
    if too_large(n, m) {
        return Err(JoinError::Whole(Refusal {
            number: 48,
            place: 0,
        }));
    }
    put_joined(out, tables, lengths, n, m);
    Ok(Facts {
        threads: n as u16,
        actions: m as u16,
        peak: totals.peak,
        depth: (1 + totals.depth) as u16,
        nested: (1 + totals.nested) as u16,
    })
}
