// The calls of include/wivakkol_deques.h that C links, but for the single turn. Each calls crate wivakkol_deques's function of its name and states its clauses again: a library for other crates exports nothing to C.
#![tactic(auto)]

ghost use Rattle.std.specs.Prelude.{◌≡◌, length, replicate};
ghost use Rattle.run_memory.specs.Memory.{answer, memory};
ghost use Rattle.run_memory.specs.Blocks.{memory_of};
ghost use Rattle.wivakkol_deques.specs.DequeLent.{lent_deque_list, lent_deque_open};
ghost use Rattle.deque_limit.specs.ChoiceLimit.{choice_limits_in, choice_limits_into};
ghost use Rattle.wivakkol_deques.specs.ChoiceRows.{choice_number, choice_row};
ghost use Rattle.array_machine.specs.Arrays.{arrays};

#[unsafe(no_mangle)]
pub extern "C" fn wivakkol_deque_list_on(
    table: &[u8],
    order: &[u8],
    bytes: &mut [u8; 1040],
    words: &mut [u16; 6163],
    numbers: &mut [u32; 18],
    sums: &mut [u64; 1027],
    row: &mut [u64; 3],
) -> u32
    ensures { answer result row.new (memory_of bytes.new words.new numbers.new sums.new)
        ≡ lent_deque_list table.now order.now (memory_of bytes.old words.old numbers.old sums.old) }
{
    wivakkol_deques::wivakkol_deque_list_on(table, order, bytes, words, numbers, sums, row)
}

#[unsafe(no_mangle)]
pub extern "C" fn wivakkol_deque_limit_on(
    table: &[u8],
    p: u32,
    quota: u32,
    c: u32,
    row: &mut [u64; 3],
    rises: &mut [u64; 1024],
    falls: &mut [u64; 1024],
    serials: &mut [u64; 1024],
    depths: &mut [u16; 1024],
    peaks: &mut [u64; 17408],
    rows: &mut [u64; 17408],
    filled: &mut [u8],
) -> u32
    ensures value { result ≡ choice_number (choice_limits_in table.now p quota c (length filled.old)) }
    ensures row_after { row.new ≡ choice_row (choice_limits_in table.now p quota c (length filled.old)) }
    ensures filled_after { filled.new ≡ choice_limits_into table.now p quota c filled.old }
    ensures rises_after { (rises.new ≡ replicate 1024 0) × (falls.new ≡ replicate 1024 0) × (serials.new ≡ replicate 1024 0) × (depths.new ≡ replicate 1024 0)
        × (peaks.new ≡ replicate 17408 0) × (rows.new ≡ replicate 17408 0) }
{
    wivakkol_deques::limit::wivakkol_deque_limit_on(
        table, p, quota, c, row, rises, falls, serials, depths, peaks, rows, filled,
    )
}

#[unsafe(no_mangle)]
pub extern "C" fn wivakkol_deque_open_on(
    table: &[u8],
    settings: &[u32; 2],
    parents: &mut [u16; 1024],
    next: &[u16; 1024],
    status: &[u8; 1024],
    amounts: &[u64; 1024],
    left: &[u16; 1024],
    right: &[u16; 1024],
    under: &[u16; 1024],
    over: &[u16; 1024],
    holds: &[u8; 16],
    threads: &[u16; 16],
    quotas: &[u32; 16],
    heads: &[u16; 3],
    totals: &[u64; 3],
    row: &mut [u64; 1],
    rises: &mut [u64; 1024],
    falls: &mut [u64; 1024],
    forks: &mut [u16; 1024],
    seen: &mut [u16; 1024],
    list: &mut [u16; 1024],
) -> u32
    ensures totals_after { answer result row.new (memory settings.now parents.new
        (arrays next.now status.now amounts.now left.now right.now under.now over.now)
        holds.now threads.now quotas.now heads.now totals.now)
        ≡ lent_deque_open table.now (memory settings.now parents.old
        (arrays next.now status.now amounts.now left.now right.now under.now over.now)
        holds.now threads.now quotas.now heads.now totals.now) }
    ensures rises_after { (rises.new ≡ replicate 1024 0) × (falls.new ≡ replicate 1024 0) }
    ensures forks_after { (forks.new ≡ replicate 1024 0) × (seen.new ≡ replicate 1024 0) × (list.new ≡ replicate 1024 0) }
{
    wivakkol_deques::open::wivakkol_deque_open_on(
        table, settings, parents, next, status, amounts, left, right, under, over, holds, threads,
        quotas, heads, totals, row, rises, falls, forks, seen, list,
    )
}
