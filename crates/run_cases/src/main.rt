// Reads inputs of turnlist, runrounds, wallchart and dequelist one after the other, each with a label, and prints the label and the answer of each. A record of the input
// is its sort ('t', 'r', 'w' or 'd', 1 byte), the label's length (1 byte), the label, the input's length (3 bytes), the input.
#![tactic(auto)]

ghost use Rattle.std.specs.Prelude.{◌<◌};
ghost use Rattle.io.specs.Counts.{IsPrefixLen};

use std::io;
use std::io::Write;
use streams::read_full;

fn wide(x: u8) -> usize
    ensures { result < 256 }
{
    x as usize
}

// One byte; 0 where the input ends.
fn short(rt: &HostRuntime) -> io::Result<u8> {
    let mut bytes = [0u8; 1];
    read_full(&mut rt.stdin(), &mut bytes)?;
    Ok(bytes[0])
}

// A length of three bytes.
fn long_length(rt: &HostRuntime) -> io::Result<usize> {
    let mut bytes = [0u8; 3];
    read_full(&mut rt.stdin(), &mut bytes)?;
    Ok(wide(bytes[0]) + 256 * wide(bytes[1]) + 65536 * wide(bytes[2]))
}

// k, or the buffer's length where that is less.
fn within(k: usize, buffer: &[u8]) -> usize
    ensures { IsPrefixLen result buffer.now }
{
    k.min(buffer.len())
}

// Copies a label that fills the buffer to the output.
fn label(rt: &HostRuntime, buffer: &mut [u8]) -> io::Result<()> {
    let n = read_full(&mut rt.stdin(), buffer)?;
    rt.stdout().write_all(&buffer[..n])?;
    rt.stdout().write_all(b": ")
}

// Prints what turnlist answers.
fn turns(rt: &HostRuntime, input: &[u8]) -> io::Result<()> {
    let mut text = [0u8; 262400];
    let k = listing::turn_listing(input, &mut text);
    rt.stdout().write_all(&text[..k])
}

// Prints what wallchart answers.
fn chart(rt: &HostRuntime, input: &[u8]) -> io::Result<()> {
    let mut text = [0u8; 348330];
    let k = listing::wall_chart(input, &mut text);
    rt.stdout().write_all(&text[..k])
}

// Prints what runrounds answers.
fn rounds(rt: &HostRuntime, input: &[u8]) -> io::Result<()> {
    let mut text = [0u8; 96];
    let k = listing::rounds_line(input, &mut text);
    rt.stdout().write_all(&text[..k])
}

// Prints what dequelist answers.
fn pairs(rt: &HostRuntime, input: &[u8]) -> io::Result<()> {
    let mut text = [0u8; 131200];
    let k = deque_listing::deque_listing(input, &mut text);
    rt.stdout().write_all(&text[..k])
}

// Reads an input that fills the buffer and prints its answer.
fn answer(rt: &HostRuntime, sort: u8, buffer: &mut [u8]) -> io::Result<()> {
    let n = read_full(&mut rt.stdin(), buffer)?;
    match sort {
        b't' => turns(rt, &buffer[..n]),
        b'w' => chart(rt, &buffer[..n]),
        b'd' => pairs(rt, &buffer[..n]),
        _ => rounds(rt, &buffer[..n]),
    }
}

// One record, and whether there was one.
fn one(rt: &HostRuntime) -> io::Result<bool> {
    let sort = short(rt)?;
    if sort == 0 {
        return Ok(false);
    }
    let length = wide(short(rt)?);
    let mut name = streams::buffer();
    let k = within(length, &name);
    label(rt, &mut name[..k])?;
    let length = long_length(rt)?;
    let mut bytes = streams::large_buffer();
    let n = within(length, &bytes);
    answer(rt, sort, &mut bytes[..n])?;
    Ok(true)
}

fn main(rt: HostRuntime) -> io::Result<()> {
    for _ in 0..1000 {
        if !one(&rt)? {
            return Ok(());
        }
    }
    Ok(())
}
