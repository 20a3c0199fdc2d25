// Reads a table on standard input and writes its canonical form. Where it is refused, nothing is written but a line on standard error that says why.
#![tactic(auto)]

use canonical::form;
use std::io;
use streams::{large_buffer, write_answer_or_line};
use text::table_line;

fn main(rt: HostRuntime) -> io::Result<()> {
    // More than the longest table: what lies beyond is refused for its length all the same.
    write_answer_or_line(
        &mut rt.stdin(),
        &mut large_buffer(),
        form,
        &mut rt.stdout(),
        |_, refusal, line| table_line(Err(refusal), line),
        &mut rt.stderr(),
    )
}
