// Reads p (1 byte), K (3 bytes), b (4 bytes) and a table on standard input and prints one line: the useful limit of the table that runs, its serial peak, the peak of p workers, the parallel
// peak and the largest draw of a stretch; or the check that refuses.
#![tactic(auto)]

use std::io;
use streams::{large_buffer, write_answer};
use useful_limit::limit_line;

fn main(rt: HostRuntime) -> io::Result<()> {
    // More than the longest input: what lies beyond is refused for its length all the same.
    write_answer(
        &mut rt.stdin(),
        &mut large_buffer(),
        limit_line,
        &mut rt.stdout(),
    )
}
