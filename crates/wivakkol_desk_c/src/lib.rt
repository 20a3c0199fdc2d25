// The calls of include/wivakkol_desk.h, as C links them. Each calls crate wivakkol_desk's function of its name and states its clauses again: a library for other crates exports nothing to C.
#![tactic(auto)]

ghost use Rattle.std.specs.Prelude.{◌≡◌, length, replicate};
ghost use Rattle.assembly.specs.Assembly.{assembling, assembling_in};
ghost use Rattle.wivakkol_desk.specs.Rows.{assemble_number, assemble_row, disassemble_number, disassemble_row};
ghost use Rattle.assembly.specs.Disassembly.{disassembling, disassembling_in};

#[unsafe(no_mangle)]
pub extern "C" fn wivakkol_assemble_on(
    text: &[u8],
    out: &mut [u8],
    row: &mut [u64; 6],
    rises: &mut [u64; 1024],
    falls: &mut [u64; 1024],
    peaks: &mut [u64; 1024],
    depths: &mut [u16; 1024],
) -> u32
    ensures value { result ≡ assemble_number (assembling (length out.old) text.now) }
    ensures row_after { row.new ≡ assemble_row text.now (assembling (length out.old) text.now) }
    ensures out_after { out.new ≡ assembling_in text.now out.old }
    ensures rises_after { (rises.new ≡ replicate 1024 0) × (falls.new ≡ replicate 1024 0) × (peaks.new ≡ replicate 1024 0) × (depths.new ≡ replicate 1024 0) }
{
    wivakkol_desk::wivakkol_assemble_on(text, out, row, rises, falls, peaks, depths)
}

#[unsafe(no_mangle)]
pub extern "C" fn wivakkol_disassemble_on(
    table: &[u8],
    out: &mut [u8],
    row: &mut [u64; 2],
    rises: &mut [u64; 1024],
    falls: &mut [u64; 1024],
    peaks: &mut [u64; 1024],
    depths: &mut [u16; 1024],
) -> u32
    ensures value { result ≡ disassemble_number (disassembling (length out.old) table.now) }
    ensures row_after { row.new ≡ disassemble_row (disassembling (length out.old) table.now) }
    ensures out_after { out.new ≡ disassembling_in table.now out.old }
    ensures rises_after { (rises.new ≡ replicate 1024 0) × (falls.new ≡ replicate 1024 0) × (peaks.new ≡ replicate 1024 0) × (depths.new ≡ replicate 1024 0) }
{
    wivakkol_desk::wivakkol_disassemble_on(table, out, row, rises, falls, peaks, depths)
}
