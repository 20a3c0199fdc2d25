// Reads inputs of `tablecheck`, `maxquota`, `maxturns`, `memlimit`, `fitquota` and `dequelimit` one after the other, each with a label, and prints the label and the answer of each. A record of the
// input is the label's length (1 byte), the label, 't' for `tablecheck`, 'q' for `maxquota`, 'l' for `maxturns`, 'm' for `memlimit`, 'f' for `fitquota` or 'd' for `dequelimit`, the input's
// length (3 bytes), the input.
#![tactic(auto)]

ghost use Rattle.std.specs.Prelude.{◌<◌};
ghost use Rattle.io.specs.Counts.{IsPrefixLen};

use std::io;
use std::io::Write;
use streams::read_full;

fn wide(x: u8) -> usize
    ensures { result < 256 }
{
    x as usize
}

// One byte; 0 where the input ends.
fn one_byte(rt: &HostRuntime) -> io::Result<u8> {
    let mut bytes = [0u8; 1];
    read_full(&mut rt.stdin(), &mut bytes)?;
    Ok(bytes[0])
}

// A length of three bytes.
fn long_length(rt: &HostRuntime) -> io::Result<usize> {
    let mut bytes = [0u8; 3];
    read_full(&mut rt.stdin(), &mut bytes)?;
    Ok(wide(bytes[0]) + 256 * wide(bytes[1]) + 65536 * wide(bytes[2]))
}

// k, or the buffer's length where that is less.
fn within(k: usize, buffer: &[u8]) -> usize
    ensures { IsPrefixLen result buffer.now }
{
    if k <= buffer.len() { k } else { buffer.len() }
}

// Copies a label that fills the buffer to the output.
fn label(rt: &HostRuntime, buffer: &mut [u8]) -> io::Result<()> {
    let n = read_full(&mut rt.stdin(), buffer)?;
    rt.stdout().write_all(&buffer[..n])?;
    rt.stdout().write_all(b": ")
}

// The line that a program prints for an input, and its length.
fn answer_line(program: u8, input: &[u8], line: &mut [u8; 80]) -> usize
    ensures { IsPrefixLen result line.new }
{
    match program {
        b'q' => quota::quota_line(input, line),
        b'l' => most::turns_line(input, line),
        b'f' => useful_limit::fit_line(input, line),
        b'd' => deque_limit::choice_line(input, line),
        _ => text::facts_line(facts::load(input), line),
    }
}

// Reads an input that fills the buffer and prints its answer.
fn answer(rt: &HostRuntime, program: u8, buffer: &mut [u8]) -> io::Result<()> {
    let n = read_full(&mut rt.stdin(), buffer)?;
    let mut line = [0u8; 80];
    let k = answer_line(program, &buffer[..n], &mut line);
    rt.stdout().write_all(&line[..k])
}

// The same of an input of `memlimit`, whose line is longer.
fn limit_answer(rt: &HostRuntime, buffer: &mut [u8]) -> io::Result<()> {
    let n = read_full(&mut rt.stdin(), buffer)?;
    let mut line = [0u8; 160];
    let k = useful_limit::limit_line(&buffer[..n], &mut line);
    rt.stdout().write_all(&line[..k])
}

// One record, and whether there was one.
fn one(rt: &HostRuntime) -> io::Result<bool> {
    let length = wide(one_byte(rt)?);
    if length == 0 {
        return Ok(false);
    }
    let mut name = streams::buffer();
    let k = within(length, &name);
    label(rt, &mut name[..k])?;
    let program = one_byte(rt)?;
    let length = long_length(rt)?;
    let mut bytes = streams::large_buffer();
    let n = within(length, &bytes);
    match program {
        b'm' => limit_answer(rt, &mut bytes[..n])?,
        _ => answer(rt, program, &mut bytes[..n])?,
    }
    Ok(true)
}

fn main(rt: HostRuntime) -> io::Result<()> {
    for _ in 0..1000 {
        if !one(&rt)? {
            break;
        }
    }
    Ok(())
}
