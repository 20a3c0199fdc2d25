// The calls of include/wivakkol_tables.h, as C links them. Each calls crate wivakkol_tables's function of its name and states its clauses again: a library for other crates exports nothing to C.
#![tactic(auto)]

ghost use Rattle.std.specs.Prelude.{◌≡◌, replicate};
ghost use Rattle.canonical.specs.Answers.{formed_in, form_values, compared_in, compare_values};
ghost use Rattle.wivakkol_tables.specs.Rows.{form_row, compare_row, join_row};
ghost use Rattle.canonical.specs.Canonical.{canonical as form_of};
ghost use Rattle.joining.specs.Answers.{joined_in, join_values};

#[unsafe(no_mangle)]
pub extern "C" fn wivakkol_canonical_on(
    table: &[u8],
    out: &mut [u8; 36868],
    row: &mut [u64; 2],
    rises: &mut [u64; 1024],
    falls: &mut [u64; 1024],
    names: &mut [u16; 1024],
    order: &mut [u16; 1024],
) -> u32
    ensures value { result ≡ (form_values table.now).number }
    ensures row_after { row.new ≡ form_row (form_values table.now) }
    ensures out_after { out.new ≡ formed_in table.now out.old }
    ensures rises_after { (rises.new ≡ replicate 1024 0) × (falls.new ≡ replicate 1024 0) }
    ensures names_after { (names.new ≡ replicate 1024 0) × (order.new ≡ replicate 1024 0) }
{
    wivakkol_tables::wivakkol_canonical_on(table, out, row, rises, falls, names, order)
}

#[unsafe(no_mangle)]
pub extern "C" fn wivakkol_compare_on(
    first: &[u8],
    second: &[u8],
    a: &mut [u8; 36868],
    b: &mut [u8; 36868],
    row: &mut [u64; 3],
    rises: &mut [u64; 1024],
    falls: &mut [u64; 1024],
    names: &mut [u16; 1024],
    order: &mut [u16; 1024],
) -> u32
    ensures value { result ≡ (compare_values first.now second.now).number }
    ensures row_after { row.new ≡ compare_row (compare_values first.now second.now) }
    ensures a_after { a.new ≡ compared_in first.now second.now (form_of first.now) a.old }
    ensures b_after { b.new ≡ compared_in first.now second.now (form_of second.now) b.old }
    ensures rises_after { (rises.new ≡ replicate 1024 0) × (falls.new ≡ replicate 1024 0) }
    ensures names_after { (names.new ≡ replicate 1024 0) × (order.new ≡ replicate 1024 0) }
{
    wivakkol_tables::wivakkol_compare_on(first, second, a, b, row, rises, falls, names, order)
}

#[unsafe(no_mangle)]
pub extern "C" fn wivakkol_join_on(
    tables: &[u8],
    lengths: &[u32],
    out: &mut [u8; 36868],
    row: &mut [u64; 7],
    rises: &mut [u64; 1024],
    falls: &mut [u64; 1024],
    peaks: &mut [u64; 1024],
    depths: &mut [u16; 1024],
) -> u32
    ensures value { result ≡ (join_values lengths.now tables.now).number }
    ensures row_after { row.new ≡ join_row (join_values lengths.now tables.now) }
    ensures out_after { out.new ≡ joined_in lengths.now tables.now out.old }
    ensures rises_after { (rises.new ≡ replicate 1024 0) × (falls.new ≡ replicate 1024 0) × (peaks.new ≡ replicate 1024 0) × (depths.new ≡ replicate 1024 0) }
{
    wivakkol_tables::wivakkol_join_on(tables, lengths, out, row, rises, falls, peaks, depths)
}
