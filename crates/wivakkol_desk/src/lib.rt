// The desk's calls that C links, in an archive of their own, since a board needs none of them: a text assembled to a table, a table written out as its text. A call returns the refusal's number,
// 0 where there is none, and puts the place and then its values into the lent row. include/wivakkol_desk.h has the prototypes.
#![tactic(auto)]

ghost use Rattle.std.specs.Prelude.{◌≡◌, length, replicate};
ghost use Rattle.assembly.specs.Assembly.{assembling, assembling_in};
ghost use Rattle.assembly.specs.Disassembly.{disassembling, disassembling_in};
ghost use Rattle.wivakkol_desk.specs.Rows.{expected_code, expected_thread, unseen_code, number_of, row_of, listed_number, listed_row, assemble_number, assemble_row, disassemble_number, disassemble_row};

use assembly::unseen::{Unseen, unseen_at};
use assembly::{AssemblyError, Expected, assemble_in, disassemble_in};
use table::Refusal;

// What should have stood on a line, 1 to 4, and the thread where it is the next one.
fn expected_code(e: Expected) -> u64
    ensures { result ≡ expected_code e }
{
    match e {
        Expected::Keyword => 1,
        Expected::Number => 2,
        Expected::LineEnd => 3,
        Expected::NextThread(_) => 4,
    }
}

fn expected_thread(e: Expected) -> u64
    ensures { result ≡ expected_thread e }
{
    match e {
        Expected::Keyword => 0,
        Expected::Number => 0,
        Expected::LineEnd => 0,
        Expected::NextThread(t) => t as u64,
    }
}

fn unseen_code(unseen: Unseen) -> u64
    ensures { result ≡ unseen_code unseen }
{
    match unseen {
        Unseen::Nothing => 0,
        Unseen::Return => 1,
        Unseen::Mark => 2,
    }
}

// The number and row of an answer for which the buffer had room.
fn answer_row(text: &[u8], answer: Result<usize, AssemblyError>, row: &mut [u64; 6]) -> u32
    ensures value { result ≡ number_of answer }
    ensures row_after { row.new ≡ row_of text.now answer }
{
    match answer {
        Ok(k) => {
            *row = [0, k as u64, 0, 0, 0, 0];
            0
        }
        Err(error) => match error {
            AssemblyError::TooLong => {
                *row = [0, 0, 0, 0, 0, 0];
                62
            }
            AssemblyError::Malformed(line, e) => {
                let unseen = unseen_code(unseen_at(text, line));
                *row = [
                    0,
                    0,
                    line as u64,
                    expected_code(e),
                    expected_thread(e),
                    unseen,
                ];
                63
            }
            AssemblyError::Refused(r, line) => {
                *row = [r.place as u64, 0, line as u64, 0, 0, 0];
                r.number as u32
            }
        },
    }
}

// The same of a table.
fn listed_row(answer: Result<usize, Refusal>, row: &mut [u64; 2]) -> u32
    ensures value { result ≡ listed_number answer }
    ensures row_after { row.new ≡ listed_row answer }
{
    match answer {
        Ok(k) => {
            *row = [0, k as u64];
            0
        }
        Err(r) => {
            *row = [r.place as u64, 0];
            r.number as u32
        }
    }
}

// The table of a text. The working memory of these calls may hold anything, and is left cleared.
pub fn wivakkol_assemble_on(
    text: &[u8],
    out: &mut [u8],
    row: &mut [u64; 6],
    rises: &mut [u64; 1024],
    falls: &mut [u64; 1024],
    peaks: &mut [u64; 1024],
    depths: &mut [u16; 1024],
) -> u32
    ensures value { result ≡ assemble_number (assembling (length out.old) text.now) }
    ensures row_after { row.new ≡ assemble_row text.now (assembling (length out.old) text.now) }
    ensures out_after { out.new ≡ assembling_in text.now out.old }
    ensures rises_after { (rises.new ≡ replicate 1024 0) × (falls.new ≡ replicate 1024 0) × (peaks.new ≡ replicate 1024 0) × (depths.new ≡ replicate 1024 0) }
{
    let answer = assemble_in(text, out, rises, falls, peaks, depths);
    match answer {
        Ok(a) => answer_row(text, a, row),
        Err(short) => {
            *row = [0, short.needed as u64, 0, 0, 0, 0];
            61
        }
    }
}

// The text of a table.
pub fn wivakkol_disassemble_on(
    table: &[u8],
    out: &mut [u8],
    row: &mut [u64; 2],
    rises: &mut [u64; 1024],
    falls: &mut [u64; 1024],
    peaks: &mut [u64; 1024],
    depths: &mut [u16; 1024],
) -> u32
    ensures value { result ≡ disassemble_number (disassembling (length out.old) table.now) }
    ensures row_after { row.new ≡ disassemble_row (disassembling (length out.old) table.now) }
    ensures out_after { out.new ≡ disassembling_in table.now out.old }
    ensures rises_after { (rises.new ≡ replicate 1024 0) × (falls.new ≡ replicate 1024 0) × (peaks.new ≡ replicate 1024 0) × (depths.new ≡ replicate 1024 0) }
{
    let answer = disassemble_in(table, out, rises, falls, peaks, depths);
    match answer {
        Ok(a) => listed_row(a, row),
        Err(short) => {
            *row = [0, short.needed as u64];
            61
        }
    }
}
