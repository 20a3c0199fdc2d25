// The input of `filltable` taken apart: K and a table.
ghost use Rattle.std.specs.Prelude.{◌≡◌};
ghost use Rattle.filling.specs.Filling.{answer_of, whole_into, answer_to, answered_in};

use crate::fill_in;
use table::Refusal;
use table::front::three_bytes;
use text::put_word;

// The table that runs, in place or filled out, at the start of the buffer; the buffer is as it was where a check applies.
fn fill_whole(table: &[u8], quota: u32, out: &mut [u8; 36868]) -> Result<usize, Refusal>
    ensures value { result ≡ answer_of table.now quota }
    ensures out_after { out.new ≡ whole_into table.now quota out.old }
{
    let mut rises = [0u64; 1024];
    let mut falls = [0u64; 1024];
    let bytes = fill_in(table, quota, out, &mut rises, &mut falls)?;
    if bytes == 0 {
        return Ok(put_word(out, 0, table));
    }
    Ok(bytes)
}

// The same of what `filltable` reads.
pub fn fill_input(input: &[u8], out: &mut [u8; 36868]) -> Result<usize, Refusal>
    ensures value { result ≡ answer_to input.now }
    ensures out_after { out.new ≡ answered_in input.now out.old }
{
    if input.len() < 3 {
        return Err(Refusal::new(33, 0));
    }
    fill_whole(&input[3..], three_bytes(input, 0), out)
}
