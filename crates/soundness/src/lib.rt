// The test of a run's record, check 32, and the checks of a beginning. Every call is total, and what it answers equals a definition.
#![tactic(auto)]

ghost use Rattle.std.specs.Prelude.{◌≡◌, length, replicate};
ghost use Rattle.table.specs.Format.{table_of};
ghost use Rattle.filling.specs.Filled.{filled_out};
ghost use Rattle.soundness.specs.Tested.{begin_answer, begins, begun_into, next_if, parents_if, tested};

use crate::beginning::fill_start;
use crate::blank::is_blank;
use crate::sound::sound;
use filling::fill_in;
use schedule::Run;
use table::Refusal;

mod amounts;
mod beginning;
mod blank;
mod bodies;
mod common;
mod holders;
mod listed;
mod numbers;
mod shares;
mod sound;
mod unused;

pub use beginning::begin_fault;
pub use blank::blank_in;
pub use common::test_common;
pub use sound::{copy_sound, test_in};
pub use unused::bytes_rest;

// The checks of a table and of a beginning with it. Where none applies, the filled-out table in `filled` if something is above the quota, and the next actions that the run begins with and
// each thread's parent, of the table that runs; else, and where the room is too little, nothing is written there and these are zeros.
pub fn accept(
    table: &[u8],
    p: u8,
    quota: u32,
    filled: &mut [u8],
    next: &mut [u16; 1024],
    parents: &mut [u16; 1024],
) -> Result<usize, Refusal>
    ensures value { result ≡ begin_answer table.now p quota }
    ensures filled_after { filled.new ≡ begun_into table.now p quota filled.old }
    ensures next_after { next.new ≡ next_if (begins table.now p quota (length filled.old)) (table_of (filled_out table.now quota)) }
    ensures parents_after { parents.new ≡ parents_if (begins table.now p quota (length filled.old)) (table_of (filled_out table.now quota)) }
{
    let mut rises = [0u64; 1024];
    let mut falls = [0u64; 1024];
    accept_in(
        table, p, quota, filled, next, parents, &mut rises, &mut falls,
    )
}

// The same in lent working memory, which may hold anything and is left cleared.
pub fn accept_in(
    table: &[u8],
    p: u8,
    quota: u32,
    filled: &mut [u8],
    next: &mut [u16; 1024],
    parents: &mut [u16; 1024],
    rises: &mut [u64; 1024],
    falls: &mut [u64; 1024],
) -> Result<usize, Refusal>
    ensures value { result ≡ begin_answer table.now p quota }
    ensures filled_after { filled.new ≡ begun_into table.now p quota filled.old }
    ensures next_after { next.new ≡ next_if (begins table.now p quota (length filled.old)) (table_of (filled_out table.now quota)) }
    ensures parents_after { parents.new ≡ parents_if (begins table.now p quota (length filled.old)) (table_of (filled_out table.now quota)) }
    ensures rises_after { (rises.new ≡ replicate 1024 0) × (falls.new ≡ replicate 1024 0) }
{
    *next = [0; 1024];
    *parents = [0; 1024];
    let k = begin_fault(table, p, quota, rises, falls)?;
    if k == 0 {
        fill_start(table, next, parents);
        return Ok(0);
    }
    if filled.len() < k {
        return Ok(k);
    }
    // No check applies.
    let _ = fill_in(table, quota, filled, rises, falls);
    fill_start(&filled[..k], next, parents);
    Ok(k)
}

// Where 32 does not apply, the record being sound or blank, each thread's parent, which the turns after it look up.
pub fn test(run: Run) -> Option<[u16; 1024]>
    ensures { result ≡ tested run }
{
    if let Some(parents) = sound(run) {
        return Some(parents);
    }
    if is_blank(run) { Some([0; 1024]) } else { None }
}
