// The line that tells how two tables compare.
ghost use Rattle.std.specs.Prelude.{◌≡◌, length, Err};
ghost use Rattle.io.specs.Counts.{IsPrefixLen};
ghost use Rattle.table.specs.Sum.{Read};
ghost use Rattle.table.specs.Format.{u32_at};
ghost use Rattle.rows.specs.Rows.{over};
ghost use Rattle.canonical.specs.Lines.{compared_line, compare_line};

use crate::{RefusedTable, compare};
use std::cmp::Ordering;
use table::Refusal;
use table::read::word;
use text::{put_refused_of, put_word, table_line};

fn put_refused(out: &mut [u8; 80], refused: RefusedTable) -> usize
    ensures value { result ≡ length (compared_line (Err refused)) }
    ensures out_after { out.new ≡ over (compared_line (Err refused)) out.old }
{
    put_refused_of(out, refused.refusal, b" table ", refused.table)
}

fn compared_line(answer: Result<Ordering, RefusedTable>, out: &mut [u8; 80]) -> usize
    ensures value { result ≡ length (compared_line answer) }
    ensures out_after { out.new ≡ over (compared_line answer) out.old }
{
    match answer {
        Ok(Ordering::Less) => put_word(out, 0, b"before\n"),
        Ok(Ordering::Equal) => put_word(out, 0, b"equal\n"),
        Ok(Ordering::Greater) => put_word(out, 0, b"after\n"),
        Err(refused) => put_refused(out, refused),
    }
}

// 32 bits, little-endian.
fn double_word(input: &[u8]) -> usize
    ensures { Read (u32_at input.now 0) 4294967296 result }
{
    word(input, 0) + 65536 * word(input, 2)
}

// The line for an input of the first table's length in 4 bytes and the two tables.
pub fn compare_line(input: &[u8], out: &mut [u8; 80]) -> usize
    ensures value { result ≡ length (compare_line input.now) }
    ensures out_after { out.new ≡ over (compare_line input.now) out.old }
    ensures prefix_len { IsPrefixLen result out.new }
{
    if input.len() < 4 {
        return table_line(
            Err(Refusal {
                number: 33,
                place: 0,
            }),
            out,
        );
    }
    let rest = &input[4..];
    let k = double_word(input).min(rest.len());
    let mut a = [0u8; 36868];
    let mut b = [0u8; 36868];
    let answer = compare(&rest[..k], &rest[k..], &mut a, &mut b);
    compared_line(answer, out)
}
