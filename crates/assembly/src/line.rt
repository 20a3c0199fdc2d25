// What a line says, and where the next one begins.
ghost use Rattle.std.specs.Prelude.{◌≡◌, ◌<◌, length};
ghost use Rattle.assembly.specs.Words.{words_in};
ghost use Rattle.assembly.specs.Said.{said_after, said_last, line_said};
ghost use Rattle.assembly.specs.Code.Steps.{Reads, of_sort};

use crate::scan::{Class, span};
use crate::word::{first_word, keyword, read_number};
use crate::{Expected, Said};

// The largest number of a text, of 24 bits.
const LARGEST: u64 = 16777215;

// Loops over a text go from `next` to `next`: they count no index, and an iterator of lines would keep the same place.
#[derive(Drop)]
pub(crate) struct Line {
    pub(crate) said: Said,
    pub(crate) next: usize,
}

// A thread's line, or an action's.
pub(crate) fn is_of(threads: bool, said: Said) -> bool
    ensures { result ≡ of_sort threads said }
{
    match said {
        Said::Nothing => false,
        Said::Thread(_) => threads,
        Said::Action(_, _) => !threads,
        Said::Expects(_) => false,
    }
}

// A keyword with a number, and what stands after it.
fn said_last(k: u8, x: usize, rest: &[u8]) -> Said
    ensures { result ≡ said_last k x (words_in rest.now) }
{
    let more = first_word(rest);
    if more.start != more.end {
        return Said::Expects(Expected::LineEnd);
    }
    if k == 6 {
        Said::Thread(x)
    } else {
        Said::Action(k, x)
    }
}

// A keyword, and what stands after it.
fn said_after(k: u8, rest: &[u8]) -> Said
    ensures { result ≡ said_after k (words_in rest.now) }
{
    let operand = first_word(rest);
    let start = operand.start;
    let end = operand.end;
    if start == end {
        if k < 2 {
            return Said::Action(k, 0);
        }
        return Said::Expects(Expected::Number);
    }
    if k < 2 {
        return Said::Expects(Expected::LineEnd);
    }
    let x = read_number(&rest[start..end], LARGEST);
    match x {
        None => Said::Expects(Expected::Number),
        Some(x) => said_last(k, x as usize, &rest[end..]),
    }
}

// A line without its newline.
fn line_said(line: &[u8]) -> Said
    ensures { result ≡ line_said line.now }
{
    let plain = span(line, Class::Plain);
    let s = &line[..plain];
    let word = first_word(s);
    let start = word.start;
    let end = word.end;
    if start == end {
        return Said::Nothing;
    }
    let k = keyword(&s[start..end]);
    if k == 7 {
        return Said::Expects(Expected::Keyword);
    }
    said_after(k, &s[end..])
}

// The line that begins at a position.
pub(crate) fn read_line(text: &[u8], at: usize) -> Line
    requires { at < length text.now }
    ensures { Reads text.now at result }
{
    let end = at + span(&text[at..], Class::Line);
    let said = line_said(&text[at..end]);
    if end < text.len() {
        return Line {
            said,
            next: end + 1,
        };
    }
    Line { said, next: end }
}
