// Job tables as text: a text is assembled to a table's bytes, and a table is written out as its text.
#![tactic(auto)]

mod check;
mod fault;
mod line;
mod listing;
mod place;
mod put;
pub mod scan;
pub mod unseen;
pub mod word;

ghost use Rattle.std.specs.Prelude.{◌≡◌, length, replicate, Ok};
ghost use Rattle.table.specs.Format.{table_of};
ghost use Rattle.assembly.specs.Said.{saids};
ghost use Rattle.assembly.specs.Assembly.{assembled, assembled_in, answered, written_in, sizes_outside, over, bytes_by, or_short, kept_if_short, assembling, assembling_in};
ghost use Rattle.assembly.specs.Disassembly.{text_of, most_text, disassembled, disassembled_in, disassembling, disassembling_in};
ghost use Rattle.assembly.specs.Code.Steps.{Sized, Listable};

use check::{Counts, check};
pub use fault::{message, put_unseen};
use listing::put_threads;
use place::refused_at;
use put::put_table;
use table::read::{actions, threads};
use table::{Refusal, outside};

// What should have stood on a line: a keyword, a number of at most 24 bits, the line's end, or the next thread by its number.
#[derive(Clone, Copy)]
pub enum Expected {
    Keyword,
    Number,
    LineEnd,
    NextThread(usize),
}

// What a line says: nothing, a thread, an action by its kind's code and argument, or what should have stood there.
#[derive(Clone, Copy)]
pub(crate) enum Said {
    Nothing,
    Thread(usize),
    Action(u8, usize),
    Expects(Expected),
}

// Why a text gives no table: it has more than 262,144 bytes; a line is not as it should be; or the table is refused, with the line of the thread or action at which it is, 0 where no line
// tells.
#[derive(Clone, Copy)]
pub enum AssemblyError {
    TooLong,
    Malformed(usize, Expected),
    Refused(Refusal, usize),
}

// A buffer has fewer bytes than are needed, which are so many.
#[derive(Clone, Copy)]
pub struct Short {
    pub needed: usize,
}

// The longest text that is read.
const LONGEST: usize = 262144;

// The length of a text's table, which is at the start of the buffer. The buffer is as it was where the text is too long or not well-formed, or n or m is outside its range.
pub fn assemble(text: &[u8], out: &mut [u8; 36868]) -> Result<usize, AssemblyError>
    ensures value { result ≡ assembled text.now }
    ensures out_after { out.new ≡ assembled_in text.now out.old }
{
    let mut rises = [0u64; 1024];
    let mut falls = [0u64; 1024];
    let mut peaks = [0u64; 1024];
    let mut depths = [0u16; 1024];
    let answer = assemble_on(text, out, &mut rises, &mut falls, &mut peaks, &mut depths);
    match answer {
        Ok(a) => a,
        // No table is longer than the buffer.
        Err(_) => Err(AssemblyError::TooLong),
    }
}

// The same in a buffer of any length (C lends it and the four arrays), which is as it was where the table does not fit, without recursion, in lent working memory, which may hold anything and is left cleared.
pub fn assemble_in(
    text: &[u8],
    out: &mut [u8],
    rises: &mut [u64; 1024],
    falls: &mut [u64; 1024],
    peaks: &mut [u64; 1024],
    depths: &mut [u16; 1024],
) -> Result<Result<usize, AssemblyError>, Short>
    ensures value { result ≡ assembling (length out.old) text.now }
    ensures out_after { out.new ≡ assembling_in text.now out.old }
    ensures rises_after { (rises.new ≡ replicate 1024 0) × (falls.new ≡ replicate 1024 0) × (peaks.new ≡ replicate 1024 0) × (depths.new ≡ replicate 1024 0) }
{
    let answer = assemble_on(text, out, rises, falls, peaks, depths);
    *rises = [0; 1024];
    *falls = [0; 1024];
    *peaks = [0; 1024];
    *depths = [0; 1024];
    answer
}

// The working memory is left as it was used.
fn assemble_on(
    text: &[u8],
    out: &mut [u8],
    rises: &mut [u64; 1024],
    falls: &mut [u64; 1024],
    peaks: &mut [u64; 1024],
    depths: &mut [u16; 1024],
) -> Result<Result<usize, AssemblyError>, Short>
    ensures value { result ≡ assembling (length out.old) text.now }
    ensures out_after { out.new ≡ assembling_in text.now out.old }
{
    if LONGEST < text.len() {
        return Ok(Err(AssemblyError::TooLong));
    }
    let checked = check(text);
    match checked {
        Err(fault) => Ok(Err(AssemblyError::Malformed(fault.line, fault.expected))),
        Ok(counts) => write_table(text, counts, out, rises, falls, peaks, depths),
    }
}

// Check 2.
fn sizes_outside(n: usize, m: usize) -> bool
    ensures { result ≡ sizes_outside n m }
{
    outside(1, 1024, n) || outside(1, 8192, m)
}

// The table of a well-formed text of so many threads and actions, where it fits.
fn write_table(
    text: &[u8],
    counts: Counts,
    out: &mut [u8],
    rises: &mut [u64; 1024],
    falls: &mut [u64; 1024],
    peaks: &mut [u64; 1024],
    depths: &mut [u16; 1024],
) -> Result<Result<usize, AssemblyError>, Short>
    requires { Sized text.now counts.threads counts.actions }
    ensures value { result ≡ or_short (length out.old) (bytes_by (Ok counts)) (answered (Ok counts) (saids text.now)) }
    ensures out_after { out.new ≡ kept_if_short (bytes_by (Ok counts)) out.old (written_in (Ok counts) (saids text.now) out.old) }
{
    let n = counts.threads;
    let m = counts.actions;
    if sizes_outside(n, m) {
        let refusal = Refusal {
            number: 2,
            place: 0,
        };
        return Ok(Err(AssemblyError::Refused(refusal, 0)));
    }
    let size = 4 + 4 * n + 4 * m;
    if out.len() < size {
        return Err(Short { needed: size });
    }
    let k = put_table(out, text, n, m);
    let loaded = facts::load_in(&out[..k], rises, falls, peaks, depths);
    match loaded {
        Ok(_) => Ok(Ok(k)),
        Err(r) => Ok(Err(AssemblyError::Refused(r, refused_at(text, r)))),
    }
}

// The text of a table, one action to a line, at the start of the buffer, which is as it was where the table is refused. No text is longer than the buffer: 12 bytes for each of 1,024
// threads and 31 for each of 8,192 actions.
pub fn disassemble(bytes: &[u8], out: &mut [u8; 266240]) -> Result<usize, Refusal>
    ensures value { result ≡ disassembled bytes.now }
    ensures out_after { out.new ≡ disassembled_in bytes.now out.old }
{
    let mut rises = [0u64; 1024];
    let mut falls = [0u64; 1024];
    let mut peaks = [0u64; 1024];
    let mut depths = [0u16; 1024];
    let answer = disassemble_in(bytes, out, &mut rises, &mut falls, &mut peaks, &mut depths);
    match answer {
        Ok(a) => a,
        // No text is longer than the buffer.
        Err(_) => Ok(0),
    }
}

// The same in a buffer of any length, which is as it was where it has too few bytes, and in lent working memory, which may hold anything and is left cleared. The bytes needed are such that
// the text of every table of as many threads and actions fits: 12 for a thread and 31 for an action.
pub fn disassemble_in(
    bytes: &[u8],
    out: &mut [u8],
    rises: &mut [u64; 1024],
    falls: &mut [u64; 1024],
    peaks: &mut [u64; 1024],
    depths: &mut [u16; 1024],
) -> Result<Result<usize, Refusal>, Short>
    ensures value { result ≡ disassembling (length out.old) bytes.now }
    ensures out_after { out.new ≡ disassembling_in bytes.now out.old }
    ensures rises_after { (rises.new ≡ replicate 1024 0) × (falls.new ≡ replicate 1024 0) × (peaks.new ≡ replicate 1024 0) × (depths.new ≡ replicate 1024 0) }
{
    let loaded = facts::load_in(bytes, rises, falls, peaks, depths);
    match loaded {
        Err(r) => Ok(Err(r)),
        Ok(_) => write_text(bytes, out),
    }
}

// The text of an accepted table, where the buffer has bytes enough.
fn write_text(bytes: &[u8], out: &mut [u8]) -> Result<Result<usize, Refusal>, Short>
    requires { Listable bytes.now }
    ensures value { result ≡ or_short (length out.old) (most_text (table_of bytes.now)) (Ok (length (text_of (table_of bytes.now)))) }
    ensures out_after { out.new ≡ kept_if_short (most_text (table_of bytes.now)) out.old (over (text_of (table_of bytes.now)) out.old) }
{
    let n = threads(bytes);
    let most = 12 * n + 31 * actions(bytes);
    if out.len() < most {
        return Err(Short { needed: most });
    }
    Ok(Ok(put_threads(out, bytes, n)))
}
