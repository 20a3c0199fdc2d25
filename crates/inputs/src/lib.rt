// Inputs of the programs as text: a few lines in front, and a table's text. The text is assembled to the input's bytes.
#![tactic(auto)]

mod fault;
mod front;
mod number;
mod order;
mod put;
mod read;

ghost use Rattle.std.specs.Prelude.{◌≡◌};
ghost use Rattle.assembly.specs.Assembly.{assembled};
ghost use Rattle.inputs.specs.Input.{made, made_in, with_table, filled_with, later as later_line};
ghost use Rattle.inputs.specs.Code.Steps.{Passed, Addable, front_is};

use assembly::AssemblyError;
pub use fault::message;
use front::Front;
use put::put_input;
use read::read_front;

// What should have stood on a line of the front: one of its keywords, a number of at most so much, the line's end, or an order of fewer workers.
#[derive(Clone, Copy)]
pub enum Wanted {
    Workers,
    QuotaOrBetween,
    OrderOrLimit,
    Memory,
    Number(u64),
    LineEnd,
    FewerWorkers,
}

// Why a text gives no input: a front that is not as it should be, with the line; or what is said of the table's text, with its lines counted from the start of the whole text.
#[derive(Clone, Copy)]
pub enum InputError {
    Malformed(usize, Wanted),
    NoTable(AssemblyError),
}

// The longest text that is read.
const LONGEST: usize = 262144;

// The length of a text's input, which is at the start of the buffer; the buffer is as it was where there is none. No input is longer than the buffer: 6 bytes, an order of 4,096 and a table of 36,868.
pub fn assemble(text: &[u8], out: &mut [u8; 40970]) -> Result<usize, InputError>
    ensures value { result ≡ made text.now }
    ensures out_after { out.new ≡ made_in text.now out.old }
{
    if LONGEST < text.len() {
        return Err(InputError::NoTable(AssemblyError::TooLong));
    }
    let mut order = [0u8; 4096];
    let read = read_front(text, &mut order);
    let lines = read.lines;
    let at = read.at;
    let end = read.end;
    match end {
        Err(e) => Err(InputError::Malformed(lines + 1, e)),
        Ok(front) => add_table(&text[at..], front, &order, lines, out),
    }
}

// A line of the table's text, counted from the start of the whole text; 0 where no line tells.
fn later(lines: usize, line: usize) -> usize
    requires { Passed lines line }
    ensures { result ≡ later_line lines line }
{
    if line == 0 { 0 } else { lines + line }
}

// The front with the table of the text after it.
fn add_table(
    rest: &[u8],
    front: Front,
    order: &[u8],
    lines: usize,
    out: &mut [u8],
) -> Result<usize, InputError>
    requires { Addable rest.now front order.now lines out.old }
    ensures value { result ≡ with_table (front_is front order.now) lines rest.now (assembled rest.now) }
    ensures out_after { out.new ≡ filled_with (assembled rest.now) (front_is front order.now) rest.now out.old }
{
    let mut table = [0u8; 36868];
    let answer = assembly::assemble(rest, &mut table);
    match answer {
        Ok(k) => Ok(put_input(out, front, order, &table[..k])),
        Err(error) => match error {
            AssemblyError::TooLong => Err(InputError::NoTable(AssemblyError::TooLong)),
            AssemblyError::Malformed(line, e) => Err(InputError::NoTable(AssemblyError::Malformed(
                later(lines, line),
                e,
            ))),
            AssemblyError::Refused(r, line) => Err(InputError::NoTable(AssemblyError::Refused(
                r,
                later(lines, line),
            ))),
        },
    }
}
