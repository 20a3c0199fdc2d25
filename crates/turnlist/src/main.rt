// Reads p, K, an order of workers and a table on standard input, and prints the listing of the run.
#![tactic(auto)]

use listing::turn_listing;
use std::io;
use streams::{large_buffer, write_answer};

fn main(rt: HostRuntime) -> io::Result<()> {
    // More than the longest order and table: what lies beyond is refused for its length all the same.
    write_answer(
        &mut rt.stdin(),
        &mut large_buffer(),
        turn_listing,
        &mut rt.stdout(),
    )
}
