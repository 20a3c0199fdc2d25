// The single turn and what asks for its action, as C links them. Each calls crate wivakkol_turn's function of its name and states its clauses again: a library for other crates exports nothing to C.
#![tactic(auto)]

ghost use Rattle.std.specs.Prelude.{◌≡◌};
ghost use Rattle.run_memory.specs.Memory.{answer, lent_turn};
ghost use Rattle.run_memory.specs.Blocks.{memory_of};
ghost use Rattle.wivakkol_turn.specs.Actions.{kind_code, argument_of};
ghost use Rattle.table.specs.Format.{table_of};
ghost use Rattle.origin.specs.Origin.{origin_in};

#[unsafe(no_mangle)]
pub extern "C" fn wivakkol_turn_on(
    table: &[u8],
    w: u32,
    bytes: &mut [u8; 1040],
    words: &mut [u16; 6163],
    numbers: &mut [u32; 18],
    sums: &mut [u64; 1027],
    row: &mut [u64; 5],
) -> u32
    ensures { answer result row.new (memory_of bytes.new words.new numbers.new sums.new)
        ≡ lent_turn table.now w (memory_of bytes.old words.old numbers.old sums.old) }
{
    wivakkol_turn::wivakkol_turn_on(table, w, bytes, words, numbers, sums, row)
}

#[unsafe(no_mangle)]
pub extern "C" fn wivakkol_kind(table: &[u8], a: u64) -> u32
    ensures { result ≡ kind_code table.now a }
{
    wivakkol_turn::actions::wivakkol_kind(table, a)
}

#[unsafe(no_mangle)]
pub extern "C" fn wivakkol_argument(table: &[u8], a: u64) -> u32
    ensures { result ≡ argument_of table.now a }
{
    wivakkol_turn::actions::wivakkol_argument(table, a)
}

#[unsafe(no_mangle)]
pub extern "C" fn wivakkol_origin(table: &[u8], quota: u32, a: u64) -> u32
    ensures { result ≡ origin_in (table_of table.now) quota a }
{
    wivakkol_turn::actions::wivakkol_origin(table, quota, a)
}
