// Reads the input of `filltable` on standard input, K (3 bytes) and a table, and prints a line for each action of the table that runs with that quota: the number of the action of the table as given that it is, or - where it was put in. Where no table runs, the check that refuses.
#![tactic(auto)]

use std::io;
use std::io::Write;
use streams::read_full;
use table::front::three_bytes;
use table::{Refusal, read};

fn print_origin(rt: &HostRuntime, x: u32) -> io::Result<()> {
    if x == 65535 {
        rt.stdout().write_all(b"-\n")?;
        return Ok(());
    }
    print!(rt; "{x}")?;
    rt.stdout().write_all(b"\n")
}

fn print_origins(rt: &HostRuntime, table: &[u8], quota: u32) -> io::Result<()> {
    let m = read::actions(table);
    for a in 0..m {
        print_origin(rt, origin::origin(table, quota, a as u64))?;
    }
    Ok(())
}

fn refused(rt: &HostRuntime, refusal: Refusal) -> io::Result<()> {
    let mut line = [0u8; 80];
    let k = text::facts_line(Err(refusal), &mut line);
    rt.stdout().write_all(&line[..k])
}

fn print_answer(rt: &HostRuntime, input: &[u8]) -> io::Result<()> {
    let quota = three_bytes(input, 0);
    let mut table = [0u8; 36868];
    let answer = filling::fill_input(input, &mut table);
    match answer {
        Ok(k) => print_origins(rt, &table[..k], quota)?,
        Err(refusal) => refused(rt, refusal)?,
    }
    Ok(())
}

fn main(rt: HostRuntime) -> io::Result<()> {
    // More than the longest input: what lies beyond is refused for its length all the same.
    let mut buffer = streams::large_buffer();
    let n = read_full(&mut rt.stdin(), &mut buffer)?;
    print_answer(&rt, &buffer[..n])
}
