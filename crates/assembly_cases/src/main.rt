// Reads texts of tables and of inputs one after the other, each with a label, and prints the label and the table's facts, the input's bytes or the message of each. A record of what it
// reads is the label's length (1 byte), the label, 0 for a table's text and 1 for an input's (1 byte), the text's length (3 bytes), the text.
#![tactic(auto)]

ghost use Rattle.std.specs.Prelude.{◌<◌};
ghost use Rattle.io.specs.Counts.{IsPrefixLen};

use std::io;
use std::io::Write;
use streams::read_full;

fn wide(x: u8) -> usize
    ensures { result < 256 }
{
    x as usize
}

// A number of one byte; 0 where the input ends.
fn one_byte(rt: &HostRuntime) -> io::Result<usize> {
    let mut bytes = [0u8; 1];
    read_full(&mut rt.stdin(), &mut bytes)?;
    Ok(wide(bytes[0]))
}

// A number of three bytes.
fn three_bytes(rt: &HostRuntime) -> io::Result<usize> {
    let mut bytes = [0u8; 3];
    read_full(&mut rt.stdin(), &mut bytes)?;
    Ok(wide(bytes[0]) + 256 * wide(bytes[1]) + 65536 * wide(bytes[2]))
}

// k, or the buffer's length where that is less.
fn within(k: usize, buffer: &[u8]) -> usize
    ensures { IsPrefixLen result buffer.now }
{
    if k <= buffer.len() { k } else { buffer.len() }
}

// Copies a label that fills the buffer to the output.
fn label(rt: &HostRuntime, buffer: &mut [u8]) -> io::Result<()> {
    let n = read_full(&mut rt.stdin(), buffer)?;
    rt.stdout().write_all(&buffer[..n])?;
    rt.stdout().write_all(b": ")
}

// The facts of an assembled table.
fn facts(rt: &HostRuntime, bytes: &[u8]) -> io::Result<()> {
    let mut line = [0u8; 80];
    let k = text::facts_line(facts::load(bytes), &mut line);
    rt.stdout().write_all(&line[..k])
}

// Reads a text of a table that fills the buffer and prints its answer.
fn answer_table(rt: &HostRuntime, buffer: &mut [u8]) -> io::Result<()> {
    let n = read_full(&mut rt.stdin(), buffer)?;
    let mut table = [0u8; 36868];
    let answer = assembly::assemble(&buffer[..n], &mut table);
    if let Ok(k) = answer {
        facts(rt, &table[..k])?;
        return Ok(());
    }
    let mut line = [0u8; 96];
    let k = assembly::message(&buffer[..n], answer, &mut line);
    rt.stdout().write_all(&line[..k])
}

// The same for a text of an input, whose bytes are printed as they are.
fn answer_input(rt: &HostRuntime, buffer: &mut [u8]) -> io::Result<()> {
    let n = read_full(&mut rt.stdin(), buffer)?;
    let mut input = [0u8; 40970];
    let answer = inputs::assemble(&buffer[..n], &mut input);
    if let Ok(k) = answer {
        rt.stdout().write_all(&input[..k])?;
        rt.stdout().write_all(b"\n")?;
        return Ok(());
    }
    let mut line = [0u8; 96];
    let k = inputs::message(&buffer[..n], answer, &mut line);
    rt.stdout().write_all(&line[..k])
}

fn answer(rt: &HostRuntime, sort: usize, buffer: &mut [u8]) -> io::Result<()> {
    if sort == 0 {
        answer_table(rt, buffer)?;
    } else {
        answer_input(rt, buffer)?;
    }
    Ok(())
}

// One record, and whether there was one.
fn one(rt: &HostRuntime) -> io::Result<bool> {
    let length = one_byte(rt)?;
    if length == 0 {
        return Ok(false);
    }
    let mut name = streams::buffer();
    let k = within(length, &name);
    label(rt, &mut name[..k])?;
    let sort = one_byte(rt)?;
    let length = three_bytes(rt)?;
    // A byte more than the longest text.
    let mut bytes = [0u8; 262145];
    let n = within(length, &bytes);
    answer(rt, sort, &mut bytes[..n])?;
    Ok(true)
}

fn main(rt: HostRuntime) -> io::Result<()> {
    let mut left: u32 = 1000;
    while 0 < left && one(&rt)? {
        left -= 1;
    }
    Ok(())
}
