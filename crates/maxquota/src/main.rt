// Reads p (1 byte), b (4 bytes), M (8 bytes) and a table on standard input and prints one line: the largest quota for a board with memory M, or the check that refuses.
#![tactic(auto)]

use quota::quota_line;
use std::io;
use streams::{large_buffer, write_answer};

fn main(rt: HostRuntime) -> io::Result<()> {
    // More than the longest input: what lies beyond is refused for its length all the same.
    write_answer(
        &mut rt.stdin(),
        &mut large_buffer(),
        quota_line,
        &mut rt.stdout(),
    )
}
