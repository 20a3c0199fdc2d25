// Reads K (3 bytes) and a table on standard input and writes the table that runs with that quota: filled out where an alloc is above it, else as it is. Where there is none, nothing is written but a line on standard error that says why.
#![tactic(auto)]

use filling::fill_input;
use std::io;
use streams::{large_buffer, write_answer_or_line};
use text::facts_line;

fn main(rt: HostRuntime) -> io::Result<()> {
    // More than the longest input: what lies beyond is refused for its length all the same.
    write_answer_or_line(
        &mut rt.stdin(),
        &mut large_buffer(),
        |input, table| fill_input(input, table),
        &mut rt.stdout(),
        |_, refusal, line| facts_line(Err(refusal), line),
        &mut rt.stderr(),
    )
}
