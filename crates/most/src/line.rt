// The line of `maxturns`: its input taken apart, and its answer put as text.
ghost use Rattle.std.specs.Prelude.{◌≡◌, ◌≤◌, ◌++◌, length, drop};
ghost use Rattle.most.specs.Line.{most_to, limit_line, most_line};

use crate::most_turns;
use table::Refusal;
use table::front::three_bytes;
use table::read::byte;
use text::{put_labelled, put_word};

// Check 33, and the answer where it does not apply.
pub(crate) fn answer_to(input: &[u8]) -> Result<u32, Refusal>
    ensures { result ≡ most_to input.now }
{
    if input.len() < 8 {
        return Err(Refusal::new(33, 0));
    }
    most_turns(&input[8..], byte(input, 0), three_bytes(input, 1))
}

fn limit_line(limit: u32, out: &mut [u8; 80]) -> usize
    ensures value { result ≡ length (limit_line limit) }
    ensures out_after { out.new ≡ limit_line limit ++ drop result out.old }
    ensures upper_bound { result ≤ 64 }
{
    let at = put_labelled(out, 0, b"limit ", limit as u64);
    put_word(out, at, b"\n")
}

// The line of an answer, and its length.
pub(crate) fn answer_line(answer: Result<u32, Refusal>, out: &mut [u8; 80]) -> usize
    ensures value { result ≡ length (most_line answer) }
    ensures out_after { out.new ≡ most_line answer ++ drop result out.old }
    ensures upper_bound { result ≤ 64 }
{
    match answer {
        Ok(limit) => limit_line(limit, out),
        Err(refusal) => text::table_line(Err(refusal), out),
    }
}
