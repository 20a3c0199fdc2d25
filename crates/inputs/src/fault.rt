// What is said of a text that gives no input, put into a lent buffer.
ghost use Rattle.std.specs.Prelude.{◌≡◌, [], ◌∷◌, ◌++◌, length, drop};
ghost use Rattle.io.specs.Counts.{IsPrefixLen};
ghost use Rattle.text.specs.Text.{ascii, decimal};
ghost use Rattle.text.specs.Puts.{Puts};
ghost use Rattle.assembly.specs.Unseen.{unseen_at};
ghost use Rattle.assembly.specs.Message.{reason_texts, fault_texts};
ghost use Rattle.inputs.specs.Message.{wanted_texts, said};

use crate::{InputError, Wanted};
use assembly::put_unseen;
use assembly::unseen::{Unseen, unseen_at};
use text::{put_labelled, put_word};

// A number by the most that it may be.
fn put_most(out: &mut [u8], at: usize, most: u64) -> usize
    ensures { Puts out.old at out.new result (ascii "a number up to " ∷ decimal most ∷ []) 44 }
{
    put_labelled(out, at, b"a number up to ", most)
}

fn put_wanted(out: &mut [u8], at: usize, e: Wanted) -> usize
    ensures { Puts out.old at out.new result (wanted_texts e) 44 }
{
    match e {
        Wanted::Workers => put_word(out, at, b"workers"),
        Wanted::QuotaOrBetween => put_word(out, at, b"quota or between"),
        Wanted::OrderOrLimit => put_word(out, at, b"order or limit"),
        Wanted::Memory => put_word(out, at, b"memory"),
        Wanted::Number(most) => put_most(out, at, most),
        Wanted::LineEnd => put_word(out, at, b"the end of the line"),
        Wanted::FewerWorkers => put_word(out, at, b"an order of at most 4096 workers"),
    }
}

// What was wanted.
fn put_plain(out: &mut [u8], at: usize, e: Wanted) -> usize
    ensures { Puts out.old at out.new result ((ascii ": expected " ∷ []) ++ wanted_texts e) 55 }
{
    let at = put_word(out, at, b": expected ");
    put_wanted(out, at, e)
}

fn put_reason(out: &mut [u8], at: usize, unseen: Unseen, e: Wanted) -> usize
    ensures { Puts out.old at out.new result (reason_texts unseen (wanted_texts e)) 55 }
{
    match unseen {
        Unseen::Nothing => put_plain(out, at, e),
        Unseen::Return => put_unseen(out, at, unseen),
        Unseen::Mark => put_unseen(out, at, unseen),
    }
}

fn put_malformed(text: &[u8], out: &mut [u8], line: usize, e: Wanted) -> usize
    ensures { Puts out.old 0 out.new result (fault_texts line (unseen_at text.now line) (wanted_texts e)) 96 }
{
    let at = put_labelled(out, 0, b"line ", line as u64);
    let at = put_reason(out, at, unseen_at(text, line), e);
    put_word(out, at, b"\n")
}

// The line that is said of a text with this answer, and its length; none where there is an input.
pub fn message(text: &[u8], answer: Result<usize, InputError>, out: &mut [u8; 96]) -> usize
    ensures value { result ≡ length (said text.now answer) }
    ensures out_after { out.new ≡ said text.now answer ++ drop result out.old }
    ensures prefix_len { IsPrefixLen result out.new }
{
    match answer {
        Ok(_) => 0,
        Err(error) => match error {
            InputError::Malformed(line, e) => put_malformed(text, out, line, e),
            InputError::NoTable(e) => assembly::message(text, Err(e), out),
        },
    }
}
