// The lines of the front, one after the other.
ghost use Rattle.std.specs.Prelude.{◌≡◌, suc, min, ◌<◌, length};
ghost use Rattle.inputs.specs.Code.Steps.{Readable, ReadsFront, Lined, Ending};

use crate::Wanted;
use crate::front::{Front, Step, take_line};
use assembly::scan::{Class, span};

// With the lines that were passed, and where the next one begins.
#[derive(Drop)]
pub(crate) struct Read {
    pub(crate) end: Result<Front, Wanted>,
    pub(crate) lines: usize,
    pub(crate) at: usize,
}

// Where a line ends.
fn line_end(text: &[u8], at: usize) -> usize
    requires { at < length text.now }
    ensures { Lined text.now at result }
{
    at + span(&text[at..], Class::Line)
}

// Past a newline, if one stands there.
fn next_line(text: &[u8], end: usize) -> usize
    ensures { result ≡ min (suc end) (length text.now) }
{
    if end < text.len() {
        end + 1
    } else {
        text.len()
    }
}

// The text ends here.
fn at_end(front: Front) -> Result<Front, Wanted>
    ensures { Ending front result }
{
    match front {
        Front::Nothing => Err(Wanted::Workers),
        Front::Workers(_) => Err(Wanted::QuotaOrBetween),
        Front::Quota(_, _) => Err(Wanted::OrderOrLimit),
        Front::Between(_, _) => Err(Wanted::Memory),
        Front::Turns(_, _, _) => Ok(front),
        Front::Rounds(_, _, _) => Ok(front),
        Front::Board(_, _, _) => Ok(front),
    }
}

// Line by line: the loop counts lines and no index.
pub(crate) fn read_front(text: &[u8], order: &mut [u8]) -> Read
    requires { Readable text.now order.old }
    ensures { ReadsFront text.now order.new result }
{
    let mut front = Front::Nothing;
    let mut lines = 0;
    let mut at = 0;
    while at < text.len() {
        let end = line_end(text, at);
        let step = take_line(front, &text[at..end], order);
        match step {
            Err(e) => {
                return Read {
                    end: Err(e),
                    lines,
                    at,
                };
            }
            Ok(step) => match step {
                Step::Ends(f) => {
                    return Read {
                        end: Ok(f),
                        lines,
                        at,
                    };
                }
                Step::Goes(f) => {
                    front = f;
                }
            },
        }
        lines += 1;
        at = next_line(text, end);
    }
    Read {
        end: at_end(front),
        lines,
        at,
    }
}
