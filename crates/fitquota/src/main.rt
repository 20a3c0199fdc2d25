// Reads p (1 byte), b (4 bytes), M (8 bytes) and a table on standard input and prints one line: the largest quota whose useful limit is at most M, and that limit; or the least that any quota
// needs, and that quota; or the check that refuses.
#![tactic(auto)]

use std::io;
use streams::{large_buffer, write_answer};
use useful_limit::fit_line;

fn main(rt: HostRuntime) -> io::Result<()> {
    // More than the longest input: what lies beyond is refused for its length all the same.
    write_answer(
        &mut rt.stdin(),
        &mut large_buffer(),
        fit_line,
        &mut rt.stdout(),
    )
}
