// The lines of `fitquota` and `memlimit`: their input taken apart, and their answer put as text.
ghost use Rattle.std.specs.Prelude.{◌≡◌, ◌≤◌, ◌++◌, length, drop};
ghost use Rattle.useful_limit.specs.Limits.{limits};
ghost use Rattle.useful_limit.specs.Fit.{fitted};
ghost use Rattle.useful_limit.specs.Line.{limits_to, numbers_line, limits_line, fitted_to, fits_line, short_line, fitted_line};

use crate::{Fitted, Numbers, fit_in, limit_in};
use lines::put_answer;
use quota::line::{gap_in, memory_in};
use table::Refusal;
use table::front::{four_bytes, three_bytes};
use table::read::byte;
use text::{put_labelled, put_word};

// In working memory of its own.
fn fit_whole(table: &[u8], p: u8, b: u32, memory: u64) -> Result<Fitted, Refusal>
    ensures { result ≡ fitted table.now p b memory }
{
    let mut rises = [0u64; 1024];
    let mut falls = [0u64; 1024];
    let mut serials = [0u64; 1024];
    let mut depths = [0u16; 1024];
    let mut peaks = [0u64; 17408];
    let mut rows = [0u64; 17408];
    fit_in(
        table,
        p,
        b,
        memory,
        &mut rises,
        &mut falls,
        &mut serials,
        &mut depths,
        &mut peaks,
        &mut rows,
    )
}

// Check 33, and the answer where it does not apply.
pub(crate) fn answer_to(input: &[u8]) -> Result<Fitted, Refusal>
    ensures { result ≡ fitted_to input.now }
{
    if input.len() < 13 {
        return Err(Refusal::new(33, 0));
    }
    fit_whole(
        &input[13..],
        byte(input, 0),
        gap_in(input),
        memory_in(input),
    )
}

fn fits_line(quota: u32, memory: u64, out: &mut [u8; 80]) -> usize
    ensures value { result ≡ length (fits_line quota memory) }
    ensures out_after { out.new ≡ fits_line quota memory ++ drop result out.old }
    ensures upper_bound { result ≤ 64 }
{
    let at = put_labelled(out, 0, b"quota ", quota as u64);
    let at = put_labelled(out, at, b" memory ", memory);
    put_word(out, at, b"\n")
}

fn short_line(quota: u32, memory: u64, out: &mut [u8; 80]) -> usize
    ensures value { result ≡ length (short_line quota memory) }
    ensures out_after { out.new ≡ short_line quota memory ++ drop result out.old }
    ensures upper_bound { result ≤ 64 }
{
    let at = put_labelled(out, 0, b"none memory ", memory);
    let at = put_labelled(out, at, b" quota ", quota as u64);
    put_word(out, at, b"\n")
}

// The line of an answer, and its length.
pub(crate) fn answer_line(answer: Result<Fitted, Refusal>, out: &mut [u8; 80]) -> usize
    ensures value { result ≡ length (fitted_line answer) }
    ensures out_after { out.new ≡ fitted_line answer ++ drop result out.old }
    ensures upper_bound { result ≤ 64 }
{
    match answer {
        Ok(Fitted::Fits { quota, memory }) => fits_line(quota, memory, out),
        Ok(Fitted::Short { quota, memory }) => short_line(quota, memory, out),
        Err(refusal) => text::table_line(Err(refusal), out),
    }
}

// ---- memlimit

// In working memory of its own.
fn limit_whole(table: &[u8], p: u8, quota: u32, b: u32) -> Result<Numbers, Refusal>
    ensures { result ≡ limits table.now p quota b }
{
    let mut filled = [0u8; 36868];
    let mut rises = [0u64; 1024];
    let mut falls = [0u64; 1024];
    let mut serials = [0u64; 1024];
    let mut depths = [0u16; 1024];
    let mut peaks = [0u64; 17408];
    let mut rows = [0u64; 17408];
    limit_in(
        table,
        p,
        quota,
        b,
        &mut filled,
        &mut rises,
        &mut falls,
        &mut serials,
        &mut depths,
        &mut peaks,
        &mut rows,
    )
}

// The input is that of `runrounds` with b for L. Check 33, and the answer where it does not apply.
pub(crate) fn limit_to(input: &[u8]) -> Result<Numbers, Refusal>
    ensures { result ≡ limits_to input.now }
{
    if input.len() < 8 {
        return Err(Refusal::new(33, 0));
    }
    limit_whole(
        &input[8..],
        byte(input, 0),
        three_bytes(input, 1),
        four_bytes(input, 4),
    )
}

fn numbers_line(x: Numbers, out: &mut [u8; 160]) -> usize
    ensures value { result ≡ length (numbers_line x) }
    ensures out_after { out.new ≡ numbers_line x ++ drop result out.old }
    ensures upper_bound { result ≤ 160 }
{
    let at = put_labelled(out, 0, b"memory ", x.memory);
    let at = put_labelled(out, at, b" serial ", x.serial);
    let at = put_labelled(out, at, b" peak ", x.peak);
    let at = put_labelled(out, at, b" parallel ", x.parallel);
    let at = put_labelled(out, at, b" stretch ", x.stretch);
    put_word(out, at, b"\n")
}

// The line of an answer, and its length.
pub(crate) fn limits_line(answer: Result<Numbers, Refusal>, out: &mut [u8; 160]) -> usize
    ensures value { result ≡ length (limits_line answer) }
    ensures out_after { out.new ≡ limits_line answer ++ drop result out.old }
    ensures upper_bound { result ≤ 160 }
{
    match answer {
        Ok(x) => numbers_line(x, out),
        Err(refusal) => put_answer(out, 0, Err(refusal)),
    }
}
