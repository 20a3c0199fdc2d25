// A line's words: the first one, a word's keyword, a word's number.
ghost use Rattle.std.specs.Prelude.{◌≡◌, ◌&&◌, ◌+◌, ◌-◌, ◌*◌, leb};
ghost use Rattle.assembly.specs.Words.{is_digit, zero_led, same as is_same, FirstWord};
ghost use Rattle.assembly.specs.Said.{code_of_word};
ghost use Rattle.assembly.specs.Code.Steps.{Numbered};

use crate::scan::{Class, span};

// Where a word starts and ends.
#[derive(Drop)]
pub struct Word {
    pub start: usize,
    pub end: usize,
}

// The first word; it starts and ends at the same place where there is none.
pub fn first_word(s: &[u8]) -> Word
    ensures { FirstWord s.now result.start result.end }
{
    let start = span(s, Class::Blank);
    let end = start + span(&s[start..], Class::Word);
    Word { start, end }
}

pub fn same(a: &[u8], b: &[u8]) -> bool
    ensures { result ≡ is_same a.now b.now }
{
    a == b
}

// A kind's code, 6 for `thread`, 7 for any other word: the numbers of `code_of_word`, on which the theorems about texts rest.
pub(crate) fn keyword(w: &[u8]) -> u8
    ensures { result ≡ code_of_word w.now }
{
    if same(w, b"end") {
        return 0;
    }
    if same(w, b"work") {
        return 1;
    }
    if same(w, b"alloc") {
        return 2;
    }
    if same(w, b"free") {
        return 3;
    }
    if same(w, b"fork") {
        return 4;
    }
    if same(w, b"join") {
        return 5;
    }
    if same(w, b"thread") {
        return 6;
    }
    7
}

// A 0 that other digits follow.
pub fn zero_led(w: &[u8]) -> bool
    ensures { result ≡ zero_led w.now }
{
    1 < w.len() && w[0] == b'0'
}

// A digit after which the number is still at most so much.
fn goes_on(v: u64, b: u8, most: u64) -> bool
    ensures { result ≡ (is_digit b && leb (10 * v + (b - 48)) most) }
{
    if b < b'0' {
        return false;
    }
    if b'9' < b {
        return false;
    }
    let d = (b - b'0') as u64;
    if most < d {
        return false;
    }
    v <= (most - d) / 10
}

// A word's number of at most so much, in decimal as one writes it.
pub fn read_number(w: &[u8], most: u64) -> Option<u64>
    ensures { Numbered most w.now result }
{
    if zero_led(w) {
        return None;
    }
    let mut v: u64 = 0;
    for b in w {
        if !goes_on(v, *b, most) {
            return None;
        }
        v = 10 * v + (*b - b'0') as u64;
    }
    Some(v)
}
