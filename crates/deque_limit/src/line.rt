// The line of `dequelimit`: its input taken apart, and its answer put as text.
ghost use Rattle.std.specs.Prelude.{◌≡◌, ◌≤◌, ◌++◌, length, drop};
ghost use Rattle.deque_limit.specs.ChoiceLimit.{choice_limits};
ghost use Rattle.deque_limit.specs.Line.{choices_to, bounds_line, choices_line};

use crate::{Bounds, choice_limit_in};
use table::Refusal;
use table::front::{four_bytes, three_bytes};
use table::read::byte;
use text::{put_labelled, put_word};

// In working memory of its own.
fn answer_whole(table: &[u8], p: u8, quota: u32, c: u32) -> Result<Bounds, Refusal>
    ensures { result ≡ choice_limits table.now p quota c }
{
    let mut filled = [0u8; 36868];
    let mut rises = [0u64; 1024];
    let mut falls = [0u64; 1024];
    let mut serials = [0u64; 1024];
    let mut depths = [0u16; 1024];
    let mut peaks = [0u64; 17408];
    let mut rows = [0u64; 17408];
    choice_limit_in(
        table,
        p,
        quota,
        c,
        &mut filled,
        &mut rises,
        &mut falls,
        &mut serials,
        &mut depths,
        &mut peaks,
        &mut rows,
    )
}

// Check 33, and the answer where it does not apply.
pub(crate) fn answer_to(input: &[u8]) -> Result<Bounds, Refusal>
    ensures { result ≡ choices_to input.now }
{
    if input.len() < 8 {
        return Err(Refusal::new(33, 0));
    }
    answer_whole(
        &input[8..],
        byte(input, 0),
        three_bytes(input, 1),
        four_bytes(input, 4),
    )
}

fn bounds_line(x: Bounds, out: &mut [u8; 80]) -> usize
    ensures value { result ≡ length (bounds_line x) }
    ensures out_after { out.new ≡ bounds_line x ++ drop result out.old }
    ensures upper_bound { result ≤ 64 }
{
    let at = put_labelled(out, 0, b"memory ", x.memory);
    let at = put_labelled(out, at, b" near ", x.near);
    put_word(out, at, b"\n")
}

// The line of an answer, and its length.
pub(crate) fn answer_line(answer: Result<Bounds, Refusal>, out: &mut [u8; 80]) -> usize
    ensures value { result ≡ length (choices_line answer) }
    ensures out_after { out.new ≡ choices_line answer ++ drop result out.old }
    ensures upper_bound { result ≤ 64 }
{
    match answer {
        Ok(x) => bounds_line(x, out),
        Err(refusal) => text::table_line(Err(refusal), out),
    }
}
