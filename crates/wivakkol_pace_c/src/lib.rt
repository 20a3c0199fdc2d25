// The calls of include/wivakkol_pace.h, as C links them. Each calls crate wivakkol_pace's function of its name and states its clauses again: a library for other crates exports nothing to C.
#![tactic(auto)]

ghost use Rattle.std.specs.Prelude.{◌≡◌};
ghost use Rattle.run_memory.specs.Memory.{answer};
ghost use Rattle.run_memory.specs.Blocks.{memory_of};
ghost use Rattle.wivakkol_pace.specs.Paced.{kept, paced_turn};
ghost use Rattle.pace.specs.Pace.{paced, start_pace, may_number, kept_in, took_number};
ghost use Rattle.wivakkol_pace.specs.PacedRuns.{paced_list, paced_rounds};

#[unsafe(no_mangle)]
pub extern "C" fn wivakkol_paced_turn_on(
    table: &[u8],
    w: u32,
    bytes: &mut [u8; 1040],
    words: &mut [u16; 6163],
    numbers: &mut [u32; 18],
    sums: &mut [u64; 1027],
    pace: &mut [u32; 260],
    row: &mut [u64; 5],
) -> u32
    ensures { kept (answer result row.new (memory_of bytes.new words.new numbers.new sums.new)) pace.new
        ≡ paced_turn table.now w (memory_of bytes.old words.old numbers.old sums.old) pace.old }
{
    wivakkol_pace::wivakkol_paced_turn_on(table, w, bytes, words, numbers, sums, pace, row)
}

#[unsafe(no_mangle)]
pub extern "C" fn wivakkol_pace_begin_on(p: u32, b: u32, pace: &mut [u32; 260]) -> u32
    ensures { paced result pace.new ≡ start_pace p b pace.old }
{
    wivakkol_pace::wivakkol_pace_begin_on(p, b, pace)
}

#[unsafe(no_mangle)]
pub extern "C" fn wivakkol_may_on(pace: &[u32; 260], w: u32) -> u32
    ensures { result ≡ may_number pace.now w }
{
    wivakkol_pace::wivakkol_may_on(pace, w)
}

#[unsafe(no_mangle)]
pub extern "C" fn wivakkol_kept_on(pace: &[u32; 260]) -> u32
    ensures { result ≡ kept_in pace.now }
{
    wivakkol_pace::wivakkol_kept_on(pace)
}

#[unsafe(no_mangle)]
pub extern "C" fn wivakkol_took_on(pace: &mut [u32; 260], w: u32) -> u32
    ensures { paced result pace.new ≡ took_number pace.old w }
{
    wivakkol_pace::wivakkol_took_on(pace, w)
}

#[unsafe(no_mangle)]
pub extern "C" fn wivakkol_paced_list_on(
    table: &[u8],
    order: &[u8],
    bytes: &mut [u8; 1040],
    words: &mut [u16; 6163],
    numbers: &mut [u32; 18],
    sums: &mut [u64; 1027],
    pace: &mut [u32; 260],
    row: &mut [u64; 3],
) -> u32
    ensures { kept (answer result row.new (memory_of bytes.new words.new numbers.new sums.new)) pace.new
        ≡ paced_list table.now order.now (memory_of bytes.old words.old numbers.old sums.old) pace.old }
{
    wivakkol_pace::runs::wivakkol_paced_list_on(
        table, order, bytes, words, numbers, sums, pace, row,
    )
}

#[unsafe(no_mangle)]
pub extern "C" fn wivakkol_paced_rounds_on(
    table: &[u8],
    limit: u32,
    bytes: &mut [u8; 1040],
    words: &mut [u16; 6163],
    numbers: &mut [u32; 18],
    sums: &mut [u64; 1027],
    pace: &mut [u32; 260],
    row: &mut [u64; 3],
) -> u32
    ensures { kept (answer result row.new (memory_of bytes.new words.new numbers.new sums.new)) pace.new
        ≡ paced_rounds table.now limit (memory_of bytes.old words.old numbers.old sums.old) pace.old }
{
    wivakkol_pace::runs::wivakkol_paced_rounds_on(
        table, limit, bytes, words, numbers, sums, pace, row,
    )
}
