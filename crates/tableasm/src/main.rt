// Reads the text of a table on standard input and writes the table. Where there is none, nothing is written but a line on standard error that says why.
#![tactic(auto)]

use assembly::{assemble, message};
use std::io;
use streams::write_answer_or_line;

fn main(rt: HostRuntime) -> io::Result<()> {
    // A byte more than the longest text, so that a longer one is refused.
    write_answer_or_line(
        &mut rt.stdin(),
        &mut [0; 262145],
        assemble,
        &mut rt.stdout(),
        |text, error, line| message(text, Err(error), line),
        &mut rt.stderr(),
    )
}
