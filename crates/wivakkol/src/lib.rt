// The calls that C links: on numbers and lent arrays alone, each answering any input whatever. A call returns the refusal's number, 0 where there is none, and puts the place and then
// its values into the lent row; every number of the row is written, so that nothing of what was there before is left. The single turn is crate wivakkol_turn's. include/wivakkol.h has the prototypes.
#![tactic(auto)]

ghost use Rattle.std.specs.Prelude.{◌≡◌, replicate};
ghost use Rattle.table.specs.Load.{table_values};
ghost use Rattle.quota.specs.Quota.{values_for};
ghost use Rattle.wivakkol.specs.Rows.{facts_row, quota_row};

use quota::largest_quota_in;
use run_memory::lent::workers;

// Those that begin, open and run are public, so that `claims` can name their promises.
pub mod begin;
mod limit;
mod line;
pub mod open;
mod preview;
pub mod runs;
pub mod standing;
mod useful;

pub use limit::wivakkol_most_on;
pub use line::wivakkol_chart_on;
pub use preview::wivakkol_preview_on;
pub use useful::{wivakkol_fit_on, wivakkol_limit_on};

// A table's facts n, m, S1, D and N, or the check that refuses it. The working memory of these two calls may hold anything, and is left cleared.
pub fn wivakkol_check_on(
    table: &[u8],
    row: &mut [u64; 6],
    rises: &mut [u64; 1024],
    falls: &mut [u64; 1024],
    peaks: &mut [u64; 1024],
    depths: &mut [u16; 1024],
) -> u32
    ensures value { result ≡ (table_values table.now).number }
    ensures row_after { row.new ≡ facts_row (table_values table.now) }
    ensures rises_after { (rises.new ≡ replicate 1024 0) × (falls.new ≡ replicate 1024 0) × (peaks.new ≡ replicate 1024 0) × (depths.new ≡ replicate 1024 0) }
{
    let loaded = facts::load_in(table, rises, falls, peaks, depths);
    match loaded {
        Ok(f) => {
            *row = [
                0,
                f.threads as u64,
                f.actions as u64,
                f.peak,
                f.depth as u64,
                f.nested as u64,
            ];
            0
        }
        Err(r) => {
            *row = [r.place as u64, 0, 0, 0, 0, 0];
            r.number as u32
        }
    }
}

// The largest quota for a board with memory M, or the check that refuses.
pub fn wivakkol_quota_on(
    table: &[u8],
    p: u32,
    b: u32,
    memory: u64,
    row: &mut [u64; 2],
    rises: &mut [u64; 1024],
    falls: &mut [u64; 1024],
    peaks: &mut [u64; 1024],
    depths: &mut [u16; 1024],
) -> u32
    ensures value { result ≡ (values_for table.now p b memory).number }
    ensures row_after { row.new ≡ quota_row (values_for table.now p b memory) }
    ensures rises_after { (rises.new ≡ replicate 1024 0) × (falls.new ≡ replicate 1024 0) × (peaks.new ≡ replicate 1024 0) × (depths.new ≡ replicate 1024 0) }
{
    let w = workers(p);
    let quoted = largest_quota_in(table, w, b, memory, rises, falls, peaks, depths);
    match quoted {
        Ok(k) => {
            *row = [0, k as u64];
            0
        }
        Err(r) => {
            *row = [r.place as u64, 0];
            r.number as u32
        }
    }
}
