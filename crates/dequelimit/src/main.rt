// Reads p (1 byte), K (3 bytes), c (4 bytes) and a table on standard input and prints one line: the memory that DFDeques stays within on the table that runs, for choices below c and for
// choices 0; or the check that refuses.
#![tactic(auto)]

use deque_limit::choice_line;
use std::io;
use streams::{large_buffer, write_answer};

fn main(rt: HostRuntime) -> io::Result<()> {
    // More than the longest input: what lies beyond is refused for its length all the same.
    write_answer(
        &mut rt.stdin(),
        &mut large_buffer(),
        choice_line,
        &mut rt.stdout(),
    )
}
