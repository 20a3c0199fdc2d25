// What `jointables` does between reading and writing: its input taken apart, and an answer's size and line.
ghost use Rattle.std.specs.Prelude.{◌≡◌, ◌≤◌, ◌<◌, length, take};
ghost use Rattle.io.specs.Counts.{IsPrefixLen};
ghost use Rattle.table.specs.Sum.{Read};
ghost use Rattle.rows.specs.Rows.{over};
ghost use Rattle.joining.specs.Answers.{join_values_of};
ghost use Rattle.joining.specs.Given.{length_in, lengths_to, joined_given, given_in, given_values, joined_size, join_line};

use crate::{JoinError, join};
use table::read::{byte, word};
use table::{Facts, Refusal};
use text::{put_refused_of, table_line};

fn wide(x: u8) -> usize
    ensures { Read x 256 result }
{
    x as usize
}

// Length i, 32 bits.
fn length_in(input: &[u8], i: usize) -> u32
    requires { i < 16 }
    ensures { result ≡ length_in input.now i }
{
    (word(input, 4 * i + 1) + 65536 * word(input, 4 * i + 3)) as u32
}

// The first k lengths.
fn lengths_to(input: &[u8], k: usize) -> [u32; 16]
    requires { k ≤ 16 }
    ensures result_len { length result ≡ 16 }
    ensures result_value { take k result ≡ lengths_to input.now k }
{
    let mut lengths = [0u32; 16];
    for i in 0..k {
        lengths[i] = length_in(input, i);
    }
    lengths
}

// An input of a count (1 byte), so many lengths (4 bytes each) and the tables, joined as `join` joins them; 47 where it is short of count or lengths.
pub fn join_given(input: &[u8], out: &mut [u8; 36868]) -> Result<Facts, JoinError>
    ensures value { result ≡ joined_given input.now }
    ensures result_value { join_values_of result ≡ given_values input.now }
    ensures out_after { out.new ≡ given_in input.now out.old }
{
    let count = wide(byte(input, 0));
    if 16 < count {
        return Err(JoinError::Whole(Refusal {
            number: 47,
            place: 0,
        }));
    }
    let start = 4 * count + 1;
    if input.len() < start {
        return Err(JoinError::Whole(Refusal {
            number: 47,
            place: 0,
        }));
    }
    let lengths = lengths_to(input, count);
    join(&input[start..], &lengths[..count], out)
}

// How many bytes the joined table has, 0 where there is none.
pub fn joined_size(answer: Result<Facts, JoinError>) -> usize
    ensures { result ≡ joined_size answer }
{
    match answer {
        Ok(f) => 4 + 4 * f.threads as usize + 4 * f.actions as usize,
        Err(_) => 0,
    }
}

// The line that says why there is none, and its length; no line where there is one.
pub fn join_line(answer: Result<Facts, JoinError>, out: &mut [u8; 80]) -> usize
    ensures value { result ≡ length (join_line answer) }
    ensures out_after { out.new ≡ over (join_line answer) out.old }
    ensures prefix_len { IsPrefixLen result out.new }
{
    match answer {
        Ok(_) => 0,
        Err(e) => match e {
            JoinError::Whole(r) => table_line(Err(r), out),
            JoinError::InPart(i, r) => put_refused_of(out, r, b" part ", i),
        },
    }
}
