// Reads the first table's length (4 bytes) and two tables on standard input, and prints how they compare.
#![tactic(auto)]

use canonical::compare_line;
use std::io;
use streams::write_answer;

fn main(rt: HostRuntime) -> io::Result<()> {
    // A byte more than two of the longest tables and the length, so that a longer input is refused for its length.
    write_answer(
        &mut rt.stdin(),
        &mut [0; 73741],
        |input, line| compare_line(input, line),
        &mut rt.stdout(),
    )
}
