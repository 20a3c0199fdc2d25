// The useful limit of a table, and the quota that fits a board by it.
ghost use Rattle.std.specs.Prelude.{◌≡◌, length, replicate};
ghost use Rattle.useful_limit.specs.Limits.{limits_in, limits_into};
ghost use Rattle.useful_limit.specs.Fit.{fitted};
ghost use Rattle.wivakkol.specs.Rows.{limit_number, limit_row, fit_number, fit_row};

use crate::workers;
use useful_limit::{Fitted, fit_in, limit_in};

// The useful limit of the table that runs, S1, S_p, the parallel peak and the largest draw of a stretch, or the check that refuses; 61 where the room for the filled-out table is too little. The
// working memory of these two calls may hold anything, and is left cleared.
pub fn wivakkol_limit_on(
    table: &[u8],
    p: u32,
    quota: u32,
    b: u32,
    row: &mut [u64; 6],
    rises: &mut [u64; 1024],
    falls: &mut [u64; 1024],
    serials: &mut [u64; 1024],
    depths: &mut [u16; 1024],
    peaks: &mut [u64; 17408],
    rows: &mut [u64; 17408],
    filled: &mut [u8],
) -> u32
    ensures value { result ≡ limit_number (limits_in table.now p quota b (length filled.old)) }
    ensures row_after { row.new ≡ limit_row (limits_in table.now p quota b (length filled.old)) }
    ensures filled_after { filled.new ≡ limits_into table.now p quota b filled.old }
    ensures rises_after { (rises.new ≡ replicate 1024 0) × (falls.new ≡ replicate 1024 0) × (serials.new ≡ replicate 1024 0) × (depths.new ≡ replicate 1024 0)
        × (peaks.new ≡ replicate 17408 0) × (rows.new ≡ replicate 17408 0) }
{
    let w = workers(p);
    let answer = limit_in(
        table, w, quota, b, filled, rises, falls, serials, depths, peaks, rows,
    );
    match answer {
        Ok(x) => {
            *row = [0, x.memory, x.serial, x.peak, x.parallel, x.stretch];
            0
        }
        Err(r) => {
            *row = [r.place as u64, 0, 0, 0, 0, 0];
            r.number as u32
        }
    }
}

// The largest quota whose useful limit is at most M, and that limit; or, where none is, the quota that needs the least, and how much; or the check that refuses.
pub fn wivakkol_fit_on(
    table: &[u8],
    p: u32,
    b: u32,
    memory: u64,
    row: &mut [u64; 4],
    rises: &mut [u64; 1024],
    falls: &mut [u64; 1024],
    serials: &mut [u64; 1024],
    depths: &mut [u16; 1024],
    peaks: &mut [u64; 17408],
    rows: &mut [u64; 17408],
) -> u32
    ensures value { result ≡ fit_number (fitted table.now p b memory) }
    ensures row_after { row.new ≡ fit_row (fitted table.now p b memory) }
    ensures rises_after { (rises.new ≡ replicate 1024 0) × (falls.new ≡ replicate 1024 0) × (serials.new ≡ replicate 1024 0) × (depths.new ≡ replicate 1024 0)
        × (peaks.new ≡ replicate 17408 0) × (rows.new ≡ replicate 17408 0) }
{
    let w = workers(p);
    let answer = fit_in(
        table, w, b, memory, rises, falls, serials, depths, peaks, rows,
    );
    match answer {
        Ok(Fitted::Fits { quota, memory }) => {
            *row = [0, 1, quota as u64, memory];
            0
        }
        Ok(Fitted::Short { quota, memory }) => {
            *row = [0, 0, quota as u64, memory];
            0
        }
        Err(r) => {
            *row = [r.place as u64, 0, 0, 0];
            r.number as u32
        }
    }
}
