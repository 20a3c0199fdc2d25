// The first pass over a text: its threads and actions, or its first line that is not as it should be.
ghost use Rattle.std.specs.Prelude.{◌≡◌, ◌≤◌, length};
ghost use Rattle.assembly.specs.Said.{saids};
ghost use Rattle.assembly.specs.Assembly.{counted_by, longest_text, checked as checked_of};
ghost use Rattle.assembly.specs.Code.Steps.{Countable};

use crate::line::read_line;
use crate::{Expected, Said};

// The threads and actions of a text, or of its lines so far.
#[derive(Clone, Copy)]
pub(crate) struct Counts {
    pub(crate) threads: usize,
    pub(crate) actions: usize,
}

// The first line that is not as it should be, and what should have stood there.
#[derive(Clone, Copy)]
pub(crate) struct Fault {
    pub(crate) line: usize,
    pub(crate) expected: Expected,
}

// After one line more than those of n threads and m actions: the counts, or what should have stood there.
fn counted(said: Said, n: usize, m: usize) -> Result<Counts, Expected>
    requires { Countable n m }
    ensures { result ≡ counted_by said n m }
{
    match said {
        Said::Nothing => Ok(Counts {
            threads: n,
            actions: m,
        }),
        Said::Thread(t) => {
            if t == n {
                Ok(Counts {
                    threads: n + 1,
                    actions: m,
                })
            } else {
                Err(Expected::NextThread(n))
            }
        }
        Said::Action(_, _) => {
            if n == 0 {
                Err(Expected::NextThread(0))
            } else {
                Ok(Counts {
                    threads: n,
                    actions: m + 1,
                })
            }
        }
        Said::Expects(e) => Err(e),
    }
}

pub(crate) fn check(text: &[u8]) -> Result<Counts, Fault>
    requires { length text.now ≤ longest_text }
    ensures { result ≡ checked_of (saids text.now) }
{
    let mut at = 0;
    let mut line = 1;
    let mut n = 0;
    let mut m = 0;
    while at < text.len() {
        let read = read_line(text, at);
        let said = read.said;
        let counting = counted(said, n, m);
        match counting {
            Err(expected) => return Err(Fault { line, expected }),
            Ok(counts) => {
                n = counts.threads;
                m = counts.actions;
            }
        }
        line += 1;
        at = read.next;
    }
    Ok(Counts {
        threads: n,
        actions: m,
    })
}
