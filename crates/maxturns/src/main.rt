// Reads the input of `runrounds` on standard input (p, K, a limit of turns that is not looked at, and a table) and prints one line: the limit with which such a run always finishes, or the check that refuses.
#![tactic(auto)]

use most::turns_line;
use std::io;
use streams::{large_buffer, write_answer};

fn main(rt: HostRuntime) -> io::Result<()> {
    // More than the longest input: what lies beyond is refused for its length all the same.
    write_answer(
        &mut rt.stdin(),
        &mut large_buffer(),
        turns_line,
        &mut rt.stdout(),
    )
}
