// Reads p, K, a limit of turns and a table on standard input, runs it in rounds, and prints one line.
#![tactic(auto)]

use listing::rounds_line;
use std::io;
use streams::{large_buffer, write_answer};

fn main(rt: HostRuntime) -> io::Result<()> {
    // More than the longest table: what lies beyond is refused for its length all the same.
    write_answer(
        &mut rt.stdin(),
        &mut large_buffer(),
        rounds_line,
        &mut rt.stdout(),
    )
}
