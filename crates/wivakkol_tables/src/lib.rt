// The calls on whole tables that C links, in an archive of their own, since a board needs none of them: several tables joined, a table's canonical form, two tables compared. A call returns the
// refusal's number, 0 where there is none, and puts the place and then its values into the lent row. include/wivakkol_tables.h has the prototypes.
#![tactic(auto)]

ghost use Rattle.std.specs.Prelude.{◌≡◌, replicate};
ghost use Rattle.canonical.specs.Canonical.{canonical as form_of};
ghost use Rattle.canonical.specs.Answers.{formed_in, form_values, compared_in, compare_values, said_number};
ghost use Rattle.joining.specs.Answers.{joined_in, join_values};
ghost use Rattle.wivakkol_tables.specs.Rows.{form_row, compare_row, join_row};

use canonical::{compare_in, form_in};
use joining::{JoinError, join_in};
use std::cmp::Ordering;

// The canonical form of a table. The working memory of these calls may hold anything, and is left cleared.
pub fn wivakkol_canonical_on(
    table: &[u8],
    out: &mut [u8; 36868],
    row: &mut [u64; 2],
    rises: &mut [u64; 1024],
    falls: &mut [u64; 1024],
    names: &mut [u16; 1024],
    order: &mut [u16; 1024],
) -> u32
    ensures value { result ≡ (form_values table.now).number }
    ensures row_after { row.new ≡ form_row (form_values table.now) }
    ensures out_after { out.new ≡ formed_in table.now out.old }
    ensures rises_after { (rises.new ≡ replicate 1024 0) × (falls.new ≡ replicate 1024 0) }
    ensures names_after { (names.new ≡ replicate 1024 0) × (order.new ≡ replicate 1024 0) }
{
    let answer = form_in(table, out, rises, falls, names, order);
    match answer {
        Ok(k) => {
            *row = [0, k as u64];
            0
        }
        Err(r) => {
            *row = [r.place as u64, 0];
            r.number as u32
        }
    }
}

// 1 before, 2 equal, 3 after.
fn said_number(order: Ordering) -> u64
    ensures { result ≡ said_number order }
{
    match order {
        Ordering::Less => 1,
        Ordering::Equal => 2,
        Ordering::Greater => 3,
    }
}

// Two tables compared by the bytes of their forms.
pub fn wivakkol_compare_on(
    first: &[u8],
    second: &[u8],
    a: &mut [u8; 36868],
    b: &mut [u8; 36868],
    row: &mut [u64; 3],
    rises: &mut [u64; 1024],
    falls: &mut [u64; 1024],
    names: &mut [u16; 1024],
    order: &mut [u16; 1024],
) -> u32
    ensures value { result ≡ (compare_values first.now second.now).number }
    ensures row_after { row.new ≡ compare_row (compare_values first.now second.now) }
    ensures a_after { a.new ≡ compared_in first.now second.now (form_of first.now) a.old }
    ensures b_after { b.new ≡ compared_in first.now second.now (form_of second.now) b.old }
    ensures rises_after { (rises.new ≡ replicate 1024 0) × (falls.new ≡ replicate 1024 0) }
    ensures names_after { (names.new ≡ replicate 1024 0) × (order.new ≡ replicate 1024 0) }
{
    let answer = compare_in(first, second, a, b, rises, falls, names, order);
    match answer {
        Ok(order) => {
            *row = [0, said_number(order), 0];
            0
        }
        Err(e) => {
            *row = [e.refusal.place as u64, 0, e.table as u64];
            e.refusal.number as u32
        }
    }
}

// Tables that are lent back to back, joined as one.
pub fn wivakkol_join_on(
    tables: &[u8],
    lengths: &[u32],
    out: &mut [u8; 36868],
    row: &mut [u64; 7],
    rises: &mut [u64; 1024],
    falls: &mut [u64; 1024],
    peaks: &mut [u64; 1024],
    depths: &mut [u16; 1024],
) -> u32
    ensures value { result ≡ (join_values lengths.now tables.now).number }
    ensures row_after { row.new ≡ join_row (join_values lengths.now tables.now) }
    ensures out_after { out.new ≡ joined_in lengths.now tables.now out.old }
    ensures rises_after { (rises.new ≡ replicate 1024 0) × (falls.new ≡ replicate 1024 0) × (peaks.new ≡ replicate 1024 0) × (depths.new ≡ replicate 1024 0) }
{
    let answer = join_in(tables, lengths, out, rises, falls, peaks, depths);
    match answer {
        Ok(f) => {
            *row = [
                0,
                f.threads as u64,
                f.actions as u64,
                f.peak,
                f.depth as u64,
                f.nested as u64,
                0,
            ];
            0
        }
        Err(e) => match e {
            JoinError::Whole(r) => {
                *row = [r.place as u64, 0, 0, 0, 0, 0, 0];
                r.number as u32
            }
            JoinError::InPart(i, r) => {
                *row = [r.place as u64, 0, 0, 0, 0, 0, i as u64];
                r.number as u32
            }
        },
    }
}
