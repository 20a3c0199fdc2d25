// A limit of DFDeques' memory from the table alone: for choices below a number, and for choices 0.
#![tactic(auto)]

mod limit;
mod line;
mod numbers;

ghost use Rattle.std.specs.Prelude.{◌≡◌, ◌++◌, length, drop, replicate};
ghost use Rattle.io.specs.Counts.{IsPrefixLen};
ghost use Rattle.deque_limit.specs.ChoiceLimit.{choice_limits_in, choice_limits_into};
ghost use Rattle.deque_limit.specs.Line.{choices_to, choices_line};

use limit::choice_answer;
use line::{answer_line, answer_to};
use table::Refusal;

// What is said of the table that runs: the limit for the choices asked, and for choices 0.
#[derive(Clone, Copy, PartialEq, Eq, Debug)]
pub struct Bounds {
    pub memory: u64,
    pub near: u64,
}

// The limit for choices below c, of the table that runs. The table is filled out into the buffer, where it has to be; 36,868 bytes are always enough. The working memory may hold anything and
// is left cleared. Six arrays by themselves and no struct: C lends each.
pub fn choice_limit_in(
    table: &[u8],
    p: u8,
    quota: u32,
    c: u32,
    filled: &mut [u8],
    rises: &mut [u64; 1024],
    falls: &mut [u64; 1024],
    serials: &mut [u64; 1024],
    depths: &mut [u16; 1024],
    peaks: &mut [u64; 17408],
    rows: &mut [u64; 17408],
) -> Result<Bounds, Refusal>
    ensures value { result ≡ choice_limits_in table.now p quota c (length filled.old) }
    ensures filled_after { filled.new ≡ choice_limits_into table.now p quota c filled.old }
    ensures rises_after { (rises.new ≡ replicate 1024 0) × (falls.new ≡ replicate 1024 0) × (serials.new ≡ replicate 1024 0) × (depths.new ≡ replicate 1024 0)
        × (peaks.new ≡ replicate 17408 0) × (rows.new ≡ replicate 17408 0) }
{
    let answer = choice_answer(
        table, p, quota, c, filled, rises, falls, serials, depths, peaks, rows,
    );
    *rises = [0; 1024];
    *falls = [0; 1024];
    *serials = [0; 1024];
    *depths = [0; 1024];
    *peaks = [0; 17408];
    *rows = [0; 17408];
    answer
}

// The line that `dequelimit` prints, from the bytes that it reads, and its length.
pub fn choice_line(input: &[u8], out: &mut [u8; 80]) -> usize
    ensures value { result ≡ length (choices_line (choices_to input.now)) }
    ensures out_after { out.new ≡ choices_line (choices_to input.now) ++ drop result out.old }
    ensures prefix_len { IsPrefixLen result out.new }
{
    answer_line(answer_to(input), out)
}
