// The line of `maxquota`: its input taken apart, and its answer put as text.
ghost use Rattle.std.specs.Prelude.{◌≡◌, ◌≤◌, ◌++◌, length, drop};
ghost use Rattle.quota.specs.Line.{gap_in, memory_in, answer_to, given_line, quota_line};

use crate::largest_quota;
use table::Refusal;
use table::front::four_bytes;
use table::read::byte;
use text::{put_labelled, put_word};

// b, 32 bits.
pub fn gap_in(input: &[u8]) -> u32
    ensures { result ≡ gap_in input.now }
{
    four_bytes(input, 1)
}

// M, 64 bits.
pub fn memory_in(input: &[u8]) -> u64
    ensures { result ≡ memory_in input.now }
{
    four_bytes(input, 5) as u64 + 4294967296 * (four_bytes(input, 9) as u64)
}

// Check 33, and the answer where it does not apply.
pub(crate) fn answer_to(input: &[u8]) -> Result<u32, Refusal>
    ensures { result ≡ answer_to input.now }
{
    if input.len() < 13 {
        return Err(Refusal::new(33, 0));
    }
    largest_quota(
        &input[13..],
        byte(input, 0),
        gap_in(input),
        memory_in(input),
    )
}

fn given_line(quota: u32, out: &mut [u8; 80]) -> usize
    ensures value { result ≡ length (given_line quota) }
    ensures out_after { out.new ≡ given_line quota ++ drop result out.old }
    ensures upper_bound { result ≤ 64 }
{
    let at = put_labelled(out, 0, b"quota ", quota as u64);
    put_word(out, at, b"\n")
}

// The line of an answer, and its length.
pub(crate) fn answer_line(answer: Result<u32, Refusal>, out: &mut [u8; 80]) -> usize
    ensures value { result ≡ length (quota_line answer) }
    ensures out_after { out.new ≡ quota_line answer ++ drop result out.old }
    ensures upper_bound { result ≤ 64 }
{
    match answer {
        Ok(quota) => given_line(quota, out),
        Err(refusal) => text::table_line(Err(refusal), out),
    }
}
