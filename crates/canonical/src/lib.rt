// The same design under other numbers: a table's canonical form, and two tables compared by it.
#![tactic(auto)]

mod line;

pub use line::compare_line;

mod numbers;
mod write;

ghost use Rattle.std.specs.Prelude.{◌≡◌, ◌≤◌, length, replicate};
ghost use Rattle.rows.specs.Rows.{over};
ghost use Rattle.canonical.specs.Canonical.{canonical};
ghost use Rattle.canonical.specs.Order.{compare_tables};
ghost use Rattle.canonical.specs.Code.Rows.{Accepts};
ghost use Rattle.canonical.specs.Answers.{formed, formed_in, form_values, form_values_of, compared, compared_in, compare_values, compare_values_of};

use checks::check_in;
use std::cmp::Ordering;
use table::Refusal;
use write::write_form;

// Which of two tables is refused, counted from 0.
#[derive(Clone, Copy)]
pub struct RefusedTable {
    pub table: usize,
    pub refusal: Refusal,
}

// The canonical form of a table, at the start of the buffer, which is as it was where the table is refused.
pub fn form(table: &[u8], out: &mut [u8; 36868]) -> Result<usize, Refusal>
    ensures value { result ≡ formed table.now }
    ensures result_value { form_values_of result ≡ form_values table.now }
    ensures out_after { out.new ≡ formed_in table.now out.old }
{
    let mut rises = [0u64; 1024];
    let mut falls = [0u64; 1024];
    let mut names = [0u16; 1024];
    let mut order = [0u16; 1024];
    form_in(table, out, &mut rises, &mut falls, &mut names, &mut order)
}

// The same in lent working memory, which may hold anything and is left cleared.
pub fn form_in(
    table: &[u8],
    out: &mut [u8; 36868],
    rises: &mut [u64; 1024],
    falls: &mut [u64; 1024],
    names: &mut [u16; 1024],
    order: &mut [u16; 1024],
) -> Result<usize, Refusal>
    ensures value { result ≡ formed table.now }
    ensures result_value { form_values_of result ≡ form_values table.now }
    ensures out_after { out.new ≡ formed_in table.now out.old }
    ensures rises_after { (rises.new ≡ replicate 1024 0) × (falls.new ≡ replicate 1024 0) }
    ensures names_after { (names.new ≡ replicate 1024 0) × (order.new ≡ replicate 1024 0) }
{
    *names = [0; 1024];
    *order = [0; 1024];
    check_in(table, rises, falls)?;
    Ok(write_form(table, out, names, order))
}

// How the first table stands to the second by the bytes of their forms, the first difference deciding. The forms are then at the starts of the two buffers, which are as they were where a table is refused.
pub fn compare(
    first: &[u8],
    second: &[u8],
    a: &mut [u8; 36868],
    b: &mut [u8; 36868],
) -> Result<Ordering, RefusedTable>
    ensures value { result ≡ compared first.now second.now }
    ensures result_value { compare_values_of result ≡ compare_values first.now second.now }
    ensures a_after { a.new ≡ compared_in first.now second.now (canonical first.now) a.old }
    ensures b_after { b.new ≡ compared_in first.now second.now (canonical second.now) b.old }
{
    let mut rises = [0u64; 1024];
    let mut falls = [0u64; 1024];
    let mut names = [0u16; 1024];
    let mut order = [0u16; 1024];
    compare_in(
        first, second, a, b, &mut rises, &mut falls, &mut names, &mut order,
    )
}

// The same in lent working memory, which may hold anything and is left cleared.
pub fn compare_in(
    first: &[u8],
    second: &[u8],
    a: &mut [u8; 36868],
    b: &mut [u8; 36868],
    rises: &mut [u64; 1024],
    falls: &mut [u64; 1024],
    names: &mut [u16; 1024],
    order: &mut [u16; 1024],
) -> Result<Ordering, RefusedTable>
    ensures value { result ≡ compared first.now second.now }
    ensures result_value { compare_values_of result ≡ compare_values first.now second.now }
    ensures a_after { a.new ≡ compared_in first.now second.now (canonical first.now) a.old }
    ensures b_after { b.new ≡ compared_in first.now second.now (canonical second.now) b.old }
    ensures rises_after { (rises.new ≡ replicate 1024 0) × (falls.new ≡ replicate 1024 0) }
    ensures names_after { (names.new ≡ replicate 1024 0) × (order.new ≡ replicate 1024 0) }
{
    *names = [0; 1024];
    *order = [0; 1024];
    if let Err(refusal) = check_in(first, rises, falls) {
        return Err(RefusedTable { table: 0, refusal });
    }
    if let Err(refusal) = check_in(second, rises, falls) {
        return Err(RefusedTable { table: 1, refusal });
    }
    Ok(compare_forms(first, second, a, b, names, order))
}

// Two accepted tables.
fn compare_forms(
    first: &[u8],
    second: &[u8],
    a: &mut [u8],
    b: &mut [u8],
    names: &mut [u16; 1024],
    order: &mut [u16; 1024],
) -> Ordering
    requires { (Accepts first.now × (36868 ≤ length a.old)) × (Accepts second.now × (36868 ≤ length b.old)) }
    ensures value { result ≡ compare_tables first.now second.now }
    ensures a_after { a.new ≡ over (canonical first.now) a.old }
    ensures b_after { b.new ≡ over (canonical second.now) b.old }
    ensures names_after { (names.new ≡ replicate 1024 0) × (order.new ≡ replicate 1024 0) }
{
    let k = write_form(first, a, names, order);
    let l = write_form(second, b, names, order);
    a[..k].cmp(&b[..l])
}
