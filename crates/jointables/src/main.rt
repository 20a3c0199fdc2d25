// Reads a count (1 byte), so many lengths (4 bytes each) and the tables on standard input, and writes them joined as one table. Where there is none, nothing is written but a line on
// standard error that says why.
#![tactic(auto)]

use joining::{join_given, join_line, joined_size};
use std::io;
use streams::write_answer_or_line;

// A byte more than sixteen of the longest tables with their lengths and the count, so that a longer input is refused.
fn input_buffer() -> [u8; 589954] {
    [0; 589954]
}

fn main(rt: HostRuntime) -> io::Result<()> {
    write_answer_or_line(
        &mut rt.stdin(),
        &mut input_buffer(),
        |input, table| join_given(input, table).map(|facts| joined_size(Ok(facts))),
        &mut rt.stdout(),
        |_, error, line| join_line(Err(error), line),
        &mut rt.stderr(),
    )
}
