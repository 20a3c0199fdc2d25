// The one number of a line.
ghost use Rattle.std.specs.Prelude.{◌≡◌};
ghost use Rattle.assembly.specs.Words.{words_in};
ghost use Rattle.inputs.specs.Number.{figure_of, figure_last};

use crate::Wanted;
use assembly::word::{first_word, read_number};

// The number that stands after a keyword, alone.
pub(crate) fn read_figure(rest: &[u8], most: u64) -> Result<u64, Wanted>
    ensures { result ≡ figure_of most (words_in rest.now) }
{
    let word = first_word(rest);
    let start = word.start;
    let end = word.end;
    if start == end {
        return Err(Wanted::Number(most));
    }
    let x = read_number(&rest[start..end], most);
    match x {
        None => Err(Wanted::Number(most)),
        Some(x) => figure_last(x, &rest[end..]),
    }
}

// A number, and what stands after it.
fn figure_last(x: u64, rest: &[u8]) -> Result<u64, Wanted>
    ensures { result ≡ figure_last x (words_in rest.now) }
{
    let more = first_word(rest);
    if more.start != more.end {
        return Err(Wanted::LineEnd);
    }
    Ok(x)
}
