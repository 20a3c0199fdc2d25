// Reads a table on standard input and prints one line: its facts, or the check that refuses it.
#![tactic(auto)]

use facts::load;
use std::io;
use streams::{large_buffer, write_answer};
use text::facts_line;

fn main(rt: HostRuntime) -> io::Result<()> {
    // More than the longest table: what lies beyond is refused for its length all the same.
    write_answer(
        &mut rt.stdin(),
        &mut large_buffer(),
        |table, line| facts_line(load(table), line),
        &mut rt.stdout(),
    )
}
