// The calls of include/wivakkol.h that C links, but for the single turn. Each calls crate wivakkol's function of its name and states its clauses again: a library for other crates exports nothing to C.
#![tactic(auto)]

ghost use Rattle.std.specs.Prelude.{◌≡◌, replicate, length, List, ℕ};
ghost use Rattle.table.specs.Load.{table_values};
ghost use Rattle.wivakkol.specs.Rows.{facts_row, quota_row, most_row, limit_number, limit_row, fit_number, fit_row};
ghost use Rattle.quota.specs.Quota.{values_for};
ghost use Rattle.array_machine.specs.Arrays.{arrays};
ghost use Rattle.soundness.specs.Tested.{begun_into};
ghost use Rattle.run_memory.specs.Memory.{memory, answer};
ghost use Rattle.wivakkol.specs.Lent.{lent_begin, lent_list, lent_rounds};
ghost use Rattle.most.specs.Most.{most_values_for};
ghost use Rattle.wivakkol.specs.Opened.{line_fault, line_after, lent_open};
ghost use Rattle.run_memory.specs.Blocks.{memory_of};
ghost use Rattle.wivakkol.specs.Preview.{preview, lent_preview};
ghost use Rattle.useful_limit.specs.Limits.{limits_in, limits_into};
ghost use Rattle.useful_limit.specs.Fit.{fitted};

#[unsafe(no_mangle)]
pub extern "C" fn wivakkol_check_on(
    table: &[u8],
    row: &mut [u64; 6],
    rises: &mut [u64; 1024],
    falls: &mut [u64; 1024],
    peaks: &mut [u64; 1024],
    depths: &mut [u16; 1024],
) -> u32
    ensures value { result ≡ (table_values table.now).number }
    ensures row_after { row.new ≡ facts_row (table_values table.now) }
    ensures rises_after { (rises.new ≡ replicate 1024 0) × (falls.new ≡ replicate 1024 0) × (peaks.new ≡ replicate 1024 0) × (depths.new ≡ replicate 1024 0) }
{
    wivakkol::wivakkol_check_on(table, row, rises, falls, peaks, depths)
}

#[unsafe(no_mangle)]
pub extern "C" fn wivakkol_quota_on(
    table: &[u8],
    p: u32,
    b: u32,
    memory: u64,
    row: &mut [u64; 2],
    rises: &mut [u64; 1024],
    falls: &mut [u64; 1024],
    peaks: &mut [u64; 1024],
    depths: &mut [u16; 1024],
) -> u32
    ensures value { result ≡ (values_for table.now p b memory).number }
    ensures row_after { row.new ≡ quota_row (values_for table.now p b memory) }
    ensures rises_after { (rises.new ≡ replicate 1024 0) × (falls.new ≡ replicate 1024 0) × (peaks.new ≡ replicate 1024 0) × (depths.new ≡ replicate 1024 0) }
{
    wivakkol::wivakkol_quota_on(table, p, b, memory, row, rises, falls, peaks, depths)
}

#[unsafe(no_mangle)]
pub extern "C" fn wivakkol_begin_on(
    table: &[u8],
    p: u32,
    quota: u32,
    settings: &mut [u32; 2],
    parents: &mut [u16; 1024],
    next: &mut [u16; 1024],
    status: &mut [u8; 1024],
    amounts: &mut [u64; 1024],
    left: &mut [u16; 1024],
    right: &mut [u16; 1024],
    under: &mut [u16; 1024],
    over: &mut [u16; 1024],
    holds: &mut [u8; 16],
    threads: &mut [u16; 16],
    quotas: &mut [u32; 16],
    heads: &mut [u16; 3],
    totals: &mut [u64; 3],
    row: &mut [u64; 2],
    rises: &mut [u64; 1024],
    falls: &mut [u64; 1024],
    filled: &mut [u8],
) -> u32
    ensures totals_after { answer result row.new (memory settings.new parents.new
        (arrays next.new status.new amounts.new left.new right.new under.new over.new)
        holds.new threads.new quotas.new heads.new totals.new)
        ≡ lent_begin table.now p quota (length filled.old) }
    ensures filled_after { filled.new ≡ begun_into table.now p quota filled.old }
    ensures rises_after { (rises.new ≡ replicate 1024 0) × (falls.new ≡ replicate 1024 0) }
{
    wivakkol::begin::wivakkol_begin_on(
        table, p, quota, settings, parents, next, status, amounts, left, right, under, over, holds,
        threads, quotas, heads, totals, row, rises, falls, filled,
    )
}

#[unsafe(no_mangle)]
pub extern "C" fn wivakkol_most_on(
    table: &[u8],
    p: u32,
    quota: u32,
    row: &mut [u64; 2],
    rises: &mut [u64; 1024],
    falls: &mut [u64; 1024],
) -> u32
    ensures value { result ≡ (most_values_for table.now p quota).number }
    ensures row_after { row.new ≡ most_row (most_values_for table.now p quota) }
    ensures rises_after { (rises.new ≡ replicate 1024 0) × (falls.new ≡ replicate 1024 0) }
{
    wivakkol::wivakkol_most_on(table, p, quota, row, rises, falls)
}

#[unsafe(no_mangle)]
pub extern "C" fn wivakkol_chart_on(
    table: &[u8],
    settings: &[u32; 2],
    next: &[u16; 1024],
    status: &[u8; 1024],
    amounts: &[u64; 1024],
    left: &[u16; 1024],
    right: &[u16; 1024],
    holds: &[u8; 16],
    threads: &[u16; 16],
    quotas: &[u32; 16],
    heads: &[u16; 3],
    totals: &[u64; 3],
    line: &mut [u8; 85],
    rises: &mut [u64; 1024],
    falls: &mut [u64; 1024],
    forks: &mut [u16; 1024],
    seen: &mut [u16; 1024],
    list: &mut [u16; 1024],
) -> u32
    ensures by_index { (parents under over : List ℕ) → result ≡ line_fault table.now (memory settings.now parents
        (arrays next.now status.now amounts.now left.now right.now under over)
        holds.now threads.now quotas.now heads.now totals.now) }
    ensures by_index_2 { (parents under over : List ℕ) → line.new ≡ line_after result (memory settings.now parents
        (arrays next.now status.now amounts.now left.now right.now under over)
        holds.now threads.now quotas.now heads.now totals.now) line.old }
    ensures rises_after { (rises.new ≡ replicate 1024 0) × (falls.new ≡ replicate 1024 0) }
    ensures forks_after { (forks.new ≡ replicate 1024 0) × (seen.new ≡ replicate 1024 0) × (list.new ≡ replicate 1024 0) }
{
    wivakkol::wivakkol_chart_on(
        table, settings, next, status, amounts, left, right, holds, threads, quotas, heads, totals,
        line, rises, falls, forks, seen, list,
    )
}

#[unsafe(no_mangle)]
pub extern "C" fn wivakkol_open_on(
    table: &[u8],
    settings: &[u32; 2],
    parents: &mut [u16; 1024],
    next: &[u16; 1024],
    status: &[u8; 1024],
    amounts: &[u64; 1024],
    left: &[u16; 1024],
    right: &[u16; 1024],
    under: &mut [u16; 1024],
    over: &mut [u16; 1024],
    holds: &[u8; 16],
    threads: &[u16; 16],
    quotas: &[u32; 16],
    heads: &mut [u16; 3],
    totals: &[u64; 3],
    row: &mut [u64; 1],
    rises: &mut [u64; 1024],
    falls: &mut [u64; 1024],
    forks: &mut [u16; 1024],
    seen: &mut [u16; 1024],
    list: &mut [u16; 1024],
) -> u32
    ensures totals_after { answer result row.new (memory settings.now parents.new
        (arrays next.now status.now amounts.now left.now right.now under.new over.new)
        holds.now threads.now quotas.now heads.new totals.now)
        ≡ lent_open table.now (memory settings.now parents.old
        (arrays next.now status.now amounts.now left.now right.now under.old over.old)
        holds.now threads.now quotas.now heads.old totals.now) }
    ensures rises_after { (rises.new ≡ replicate 1024 0) × (falls.new ≡ replicate 1024 0) }
    ensures forks_after { (forks.new ≡ replicate 1024 0) × (seen.new ≡ replicate 1024 0) × (list.new ≡ replicate 1024 0) }
{
    wivakkol::open::wivakkol_open_on(
        table, settings, parents, next, status, amounts, left, right, under, over, holds, threads,
        quotas, heads, totals, row, rises, falls, forks, seen, list,
    )
}

#[unsafe(no_mangle)]
pub extern "C" fn wivakkol_preview_on(
    table: &[u8],
    w: u32,
    bytes: &[u8; 1040],
    words: &[u16; 6163],
    numbers: &[u32; 18],
    sums: &[u64; 1027],
    row: &mut [u64; 8],
) -> u32
    ensures { preview result row.new ≡ lent_preview table.now w (memory_of bytes.now words.now numbers.now sums.now) }
{
    wivakkol::wivakkol_preview_on(table, w, bytes, words, numbers, sums, row)
}

#[unsafe(no_mangle)]
pub extern "C" fn wivakkol_list_on(
    table: &[u8],
    order: &[u8],
    bytes: &mut [u8; 1040],
    words: &mut [u16; 6163],
    numbers: &mut [u32; 18],
    sums: &mut [u64; 1027],
    row: &mut [u64; 3],
) -> u32
    ensures { answer result row.new (memory_of bytes.new words.new numbers.new sums.new)
        ≡ lent_list table.now order.now (memory_of bytes.old words.old numbers.old sums.old) }
{
    wivakkol::runs::wivakkol_list_on(table, order, bytes, words, numbers, sums, row)
}

#[unsafe(no_mangle)]
pub extern "C" fn wivakkol_rounds_on(
    table: &[u8],
    limit: u32,
    bytes: &mut [u8; 1040],
    words: &mut [u16; 6163],
    numbers: &mut [u32; 18],
    sums: &mut [u64; 1027],
    row: &mut [u64; 3],
) -> u32
    ensures { answer result row.new (memory_of bytes.new words.new numbers.new sums.new)
        ≡ lent_rounds table.now limit (memory_of bytes.old words.old numbers.old sums.old) }
{
    wivakkol::runs::wivakkol_rounds_on(table, limit, bytes, words, numbers, sums, row)
}

#[unsafe(no_mangle)]
pub extern "C" fn wivakkol_limit_on(
    table: &[u8],
    p: u32,
    quota: u32,
    b: u32,
    row: &mut [u64; 6],
    rises: &mut [u64; 1024],
    falls: &mut [u64; 1024],
    serials: &mut [u64; 1024],
    depths: &mut [u16; 1024],
    peaks: &mut [u64; 17408],
    rows: &mut [u64; 17408],
    filled: &mut [u8],
) -> u32
    ensures value { result ≡ limit_number (limits_in table.now p quota b (length filled.old)) }
    ensures row_after { row.new ≡ limit_row (limits_in table.now p quota b (length filled.old)) }
    ensures filled_after { filled.new ≡ limits_into table.now p quota b filled.old }
    ensures rises_after { (rises.new ≡ replicate 1024 0) × (falls.new ≡ replicate 1024 0) × (serials.new ≡ replicate 1024 0) × (depths.new ≡ replicate 1024 0)
        × (peaks.new ≡ replicate 17408 0) × (rows.new ≡ replicate 17408 0) }
{
    wivakkol::wivakkol_limit_on(
        table, p, quota, b, row, rises, falls, serials, depths, peaks, rows, filled,
    )
}

#[unsafe(no_mangle)]
pub extern "C" fn wivakkol_fit_on(
    table: &[u8],
    p: u32,
    b: u32,
    memory: u64,
    row: &mut [u64; 4],
    rises: &mut [u64; 1024],
    falls: &mut [u64; 1024],
    serials: &mut [u64; 1024],
    depths: &mut [u16; 1024],
    peaks: &mut [u64; 17408],
    rows: &mut [u64; 17408],
) -> u32
    ensures value { result ≡ fit_number (fitted table.now p b memory) }
    ensures row_after { row.new ≡ fit_row (fitted table.now p b memory) }
    ensures rises_after { (rises.new ≡ replicate 1024 0) × (falls.new ≡ replicate 1024 0) × (serials.new ≡ replicate 1024 0) × (depths.new ≡ replicate 1024 0)
        × (peaks.new ≡ replicate 17408 0) × (rows.new ≡ replicate 17408 0) }
{
    wivakkol::wivakkol_fit_on(
        table, p, b, memory, row, rises, falls, serials, depths, peaks, rows,
    )
}
