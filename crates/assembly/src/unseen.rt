// Bytes of a line that an editor may not show.
ghost use Rattle.std.specs.Prelude.{◌≡◌, [], ◌∷◌, ◌-◌, take};
ghost use Rattle.assembly.specs.Words.{same as is_same};
ghost use Rattle.assembly.specs.Unseen.{unseen_in, unseen_at as unseen_of};
ghost use Rattle.assembly.specs.Code.Steps.{After};

use crate::scan::{Class, span};
use crate::word::same;

// None, a carriage return before a comment, or a byte order mark at the line's start.
#[derive(Drop)]
pub enum Unseen {
    Nothing,
    Return,
    Mark,
}

// Where a text goes on after its first k lines.
fn after_lines(text: &[u8], k: usize) -> usize
    ensures { After text.now k result }
{
    let mut at = 0;
    for i in 0..k {
        let end = at + span(&text[at..], Class::Line);
        if text.len() <= end {
            return text.len();
        }
        at = end + 1;
    }
    at
}

fn is_marked(line: &[u8]) -> bool
    ensures { result ≡ is_same (take 3 line.now) (239 ∷ 187 ∷ 191 ∷ []) }
{
    if line.len() < 3 {
        return false;
    }
    same(&line[..3], b"\xef\xbb\xbf")
}

fn unseen_in(line: &[u8]) -> Unseen
    ensures { result ≡ unseen_in line.now }
{
    if is_marked(line) {
        return Unseen::Mark;
    }
    let plain = span(line, Class::Plain);
    let shown = span(&line[..plain], Class::Shown);
    if shown < plain {
        Unseen::Return
    } else {
        Unseen::Nothing
    }
}

// In a line of a text, counted from 1.
pub fn unseen_at(text: &[u8], line: usize) -> Unseen
    ensures { result ≡ unseen_of text.now line }
{
    let at = after_lines(text, line.saturating_sub(1));
    let end = at + span(&text[at..], Class::Line);
    unseen_in(&text[at..end])
}
