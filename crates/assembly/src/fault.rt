// What is said of a text that gives no table, put into a lent buffer.
ghost use Rattle.std.specs.Prelude.{◌≡◌, [], ◌∷◌, ◌++◌, length, drop};
ghost use Rattle.io.specs.Counts.{IsPrefixLen};
ghost use Rattle.table.specs.Pass.{refusal};
ghost use Rattle.text.specs.Text.{ascii, decimal};
ghost use Rattle.text.specs.Puts.{Puts};
ghost use Rattle.assembly.specs.Message.{expected_texts, unseen_texts, reason_texts, fault_texts, line_texts, refused_texts, message_texts, message_of};
ghost use Rattle.assembly.specs.Unseen.{unseen_at};

use crate::unseen::{Unseen, unseen_at};
use crate::{AssemblyError, Expected};
use text::{put_labelled, put_word};

// The next thread by its number.
fn put_next(out: &mut [u8], at: usize, t: usize) -> usize
    ensures { Puts out.old at out.new result (ascii "thread " ∷ decimal t ∷ []) 44 }
{
    put_labelled(out, at, b"thread ", t as u64)
}

fn put_expected(out: &mut [u8], at: usize, e: Expected) -> usize
    ensures { Puts out.old at out.new result (expected_texts e) 44 }
{
    match e {
        Expected::Keyword => put_word(out, at, b"thread, alloc, free, fork, join, work or end"),
        Expected::Number => put_word(out, at, b"a number up to 16777215"),
        Expected::LineEnd => put_word(out, at, b"the end of the line"),
        Expected::NextThread(t) => put_next(out, at, t),
    }
}

// What an editor may not show.
pub fn put_unseen(out: &mut [u8], at: usize, unseen: Unseen) -> usize
    ensures { Puts out.old at out.new result (unseen_texts unseen) 55 }
{
    match unseen {
        Unseen::Nothing => at,
        Unseen::Return => put_word(
            out,
            at,
            b": a carriage return; lines end with a newline alone",
        ),
        Unseen::Mark => put_word(out, at, b": a byte order mark; a text begins without one"),
    }
}

// What was expected.
fn put_plain(out: &mut [u8], at: usize, e: Expected) -> usize
    ensures { Puts out.old at out.new result ((ascii ": expected " ∷ []) ++ expected_texts e) 55 }
{
    let at = put_word(out, at, b": expected ");
    put_expected(out, at, e)
}

fn put_reason(out: &mut [u8], at: usize, unseen: Unseen, e: Expected) -> usize
    ensures { Puts out.old at out.new result (reason_texts unseen (expected_texts e)) 55 }
{
    match unseen {
        Unseen::Nothing => put_plain(out, at, e),
        Unseen::Return => put_unseen(out, at, unseen),
        Unseen::Mark => put_unseen(out, at, unseen),
    }
}

fn put_malformed(text: &[u8], out: &mut [u8], line: usize, e: Expected) -> usize
    ensures { Puts out.old 0 out.new result (fault_texts line (unseen_at text.now line) (expected_texts e)) 96 }
{
    let at = put_labelled(out, 0, b"line ", line as u64);
    let at = put_reason(out, at, unseen_at(text, line), e);
    put_word(out, at, b"\n")
}

// The line of the text, where one tells.
fn put_line(out: &mut [u8], at: usize, line: usize) -> usize
    ensures { Puts out.old at out.new result (line_texts line) 26 }
{
    if line == 0 {
        at
    } else {
        put_labelled(out, at, b" line ", line as u64)
    }
}

fn put_refused(out: &mut [u8], number: u8, place: u16, line: usize) -> usize
    ensures { Puts out.old 0 out.new result (refused_texts (refusal number place) line) 96 }
{
    let at = put_labelled(out, 0, b"refused ", number as u64);
    let at = put_labelled(out, at, b" ", place as u64);
    let at = put_line(out, at, line);
    put_word(out, at, b"\n")
}

fn put_message(text: &[u8], out: &mut [u8], answer: Result<usize, AssemblyError>) -> usize
    ensures { Puts out.old 0 out.new result (message_texts text.now answer) 96 }
{
    match answer {
        Ok(_) => 0,
        Err(error) => match error {
            AssemblyError::TooLong => put_word(out, 0, b"text above 262144 bytes\n"),
            AssemblyError::Malformed(line, e) => put_malformed(text, out, line, e),
            AssemblyError::Refused(r, line) => put_refused(out, r.number, r.place, line),
        },
    }
}

// The line that is said of a text with this answer, and its length; none where there is a table.
pub fn message(text: &[u8], answer: Result<usize, AssemblyError>, out: &mut [u8; 96]) -> usize
    ensures value { result ≡ length (message_of text.now answer) }
    ensures out_after { out.new ≡ message_of text.now answer ++ drop result out.old }
    ensures prefix_len { IsPrefixLen result out.new }
{
    put_message(text, out, answer)
}
