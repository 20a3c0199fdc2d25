// Begins runs and moves them on by single calls, also after something in the record was changed by hand, and prints each answer with what the record then holds. A record of the input:
// the label's length (1 byte), the label, p (1), K (4), the table's length (3), the table, then calls up to a byte 0: 't' and a worker (1); 'l', a length (1) and an order; 'r' and
// L (4); 'v' and a worker (1), a turn shown and not taken; 'w', the record's line of the wall chart; 'c', a length (1) and an order, the chart over it; 'p', a field (1), a place (2) and a
// value (8). A pace beside the run, with every number 0 at first: 'b', p (1) and b (4); 'T', 'L' and 'R', paced, as 't', 'l' and 'r'; each prints the least b kept and the pace too.
#![tactic(auto)]

ghost use Rattle.std.specs.Prelude.{◌<◌, IfOk};
ghost use Rattle.io.specs.Counts.{IsPrefixLen};

use pace::kept;
use pacing::Pace;
use schedule::{Reply, Report, Run, Taken, Worker};
use std::io;
use std::io::Write;
use streams::read_full;
use table::Refusal;

fn wide(x: u8) -> usize
    ensures { result < 256 }
{
    x as usize
}

// One byte; 0 where the input ends.
fn one_byte(rt: &HostRuntime) -> io::Result<u8> {
    let mut bytes = [0u8; 1];
    read_full(&mut rt.stdin(), &mut bytes)?;
    Ok(bytes[0])
}

fn two_bytes(rt: &HostRuntime) -> io::Result<usize>
    ensures { IfOk result (λ n. n < 65536) }
{
    let mut bytes = [0u8; 2];
    read_full(&mut rt.stdin(), &mut bytes)?;
    Ok(wide(bytes[0]) + 256 * wide(bytes[1]))
}

fn four_bytes(rt: &HostRuntime) -> io::Result<u64>
    ensures { IfOk result (λ n. n < 4294967296) }
{
    let low = two_bytes(rt)? as u64;
    Ok(low + 65536 * two_bytes(rt)? as u64)
}

fn eight_bytes(rt: &HostRuntime) -> io::Result<u64> {
    let low = four_bytes(rt)?;
    Ok(low + 4294967296 * four_bytes(rt)?)
}

// k, or the buffer's length where that is less.
fn within(k: usize, buffer: &[u8]) -> usize
    ensures { IsPrefixLen result buffer.now }
{
    k.min(buffer.len())
}

// ---- what is printed

fn say(rt: &HostRuntime, word: &[u8]) -> io::Result<()> {
    rt.stdout().write_all(word)
}

// The first k bytes of a text.
fn say_front(rt: &HostRuntime, text: &[u8], k: usize) -> io::Result<()> {
    let n = within(k, text);
    say(rt, &text[..n])
}

// A word and a number.
fn tell(rt: &HostRuntime, word: &[u8], x: u64) -> io::Result<()> {
    rt.stdout().write_all(word)?;
    print!(rt; "{x}")
}

fn tell_refusal(rt: &HostRuntime, x: Refusal) -> io::Result<()> {
    tell(rt, b" ", x.number as u64)?;
    tell(rt, b" ", x.place as u64)
}

fn tell_reply(rt: &HostRuntime, reply: Reply) -> io::Result<()> {
    match reply {
        Reply::Idle => say(rt, b"idle")?,
        Reply::Done { thread, action } => {
            tell(rt, b"done ", thread as u64)?;
            tell(rt, b" ", action as u64)?;
        }
        Reply::Quota { thread, wanted } => {
            tell(rt, b"quota ", thread as u64)?;
            tell(rt, b" ", wanted as u64)?;
        }
        Reply::Wait { thread, child } => {
            tell(rt, b"wait ", thread as u64)?;
            tell(rt, b" ", child as u64)?;
        }
    }
    Ok(())
}

fn tell_beginning(rt: &HostRuntime, answer: Result<(), Refusal>) -> io::Result<()> {
    match answer {
        Ok(()) => say(rt, b"begun")?,
        Err(x) => {
            say(rt, b"refused")?;
            tell_refusal(rt, x)?;
        }
    }
    Ok(())
}

fn tell_report(rt: &HostRuntime, report: Report) -> io::Result<()> {
    match report {
        Report::Finished(k) => tell(rt, b"finished ", k)?,
        Report::Spent(k) => tell(rt, b"spent ", k)?,
        Report::Refused(k, x) => {
            tell(rt, b"refused ", k)?;
            tell_refusal(rt, x)?;
        }
    }
    Ok(())
}

// A number that nearly any change of what was mixed changes.
fn mix(sum: u64, x: u64) -> u64 {
    let twice = std::num::wrapping_add_u64(sum, sum);
    std::num::wrapping_add_u64(std::num::wrapping_add_u64(twice, sum), x)
}

fn mix_byte(sum: u64, x: u8) -> u64 {
    mix(sum, x as u64)
}

fn mix_number(sum: u64, x: u32) -> u64 {
    mix(sum, x as u64)
}

fn mix_thread(before: u64, next: u16, status: u8, amount: u64, left: u16, right: u16) -> u64 {
    let sum = mix(mix(before, next as u64), status as u64);
    mix(mix(mix(sum, amount), left as u64), right as u64)
}

fn mix_table(before: u64, table: &[u8; 36868]) -> u64 {
    let mut sum = before;
    for x in table {
        sum = mix_byte(sum, *x);
    }
    sum
}

fn mix_threads(
    before: u64,
    next: &[u16; 1024],
    status: &[u8; 1024],
    amounts: &[u64; 1024],
    left: &[u16; 1024],
    right: &[u16; 1024],
) -> u64 {
    let mut sum = before;
    for t in 0..1024 {
        sum = mix_thread(sum, next[t], status[t], amounts[t], left[t], right[t]);
    }
    sum
}

fn mix_worker(before: u64, x: Worker) -> u64 {
    let holds = if x.holds { 1 } else { 0 };
    mix(mix(mix(before, holds), x.thread as u64), x.quota as u64)
}

fn mix_workers(before: u64, workers: [Worker; 16]) -> u64 {
    let mut sum = before;
    for x in workers {
        sum = mix_worker(sum, x);
    }
    sum
}

// The whole record in one number.
fn mix_run(run: Run) -> u64 {
    let table = run.table;
    let next = run.next;
    let status = run.status;
    let amounts = run.amounts;
    let left = run.left;
    let right = run.right;
    let workers = run.worker;
    let sum = mix_table(0, &table);
    let sum = mix_threads(sum, &next, &status, &amounts, &left, &right);
    let sum = mix_workers(sum, workers);
    let sum = mix(mix(sum, run.length as u64), run.workers as u64);
    let sum = mix(mix(sum, run.quota as u64), run.leftmost as u64);
    let sum = mix(mix(sum, run.busy as u64), run.held);
    mix(mix(sum, run.highest), run.turns)
}

fn tell_run(rt: &HostRuntime, run: Run) -> io::Result<()> {
    tell(rt, b", held ", run.held)?;
    tell(rt, b" highest ", run.highest)?;
    tell(rt, b" turns ", run.turns)?;
    tell(rt, b" record ", mix_run(run))?;
    say(rt, b"\n")
}

// ---- what is changed

fn byte_of(x: u64) -> u8 {
    (x % 256) as u8
}

fn word_of(x: u64) -> u16 {
    (x % 65536) as u16
}

fn quota_of(x: u64) -> u32 {
    (x % 4294967296) as u32
}

fn put_worker(run: Run, field: u8, w: usize, x: u64) -> Run {
    let mut changed = run;
    let mut workers = run.worker;
    if w < 16 {
        let before = workers[w];
        workers[w] = match field {
            14 => Worker {
                holds: x != 0,
                thread: before.thread,
                quota: before.quota,
            },
            15 => Worker {
                holds: before.holds,
                thread: word_of(x),
                quota: before.quota,
            },
            _ => Worker {
                holds: before.holds,
                thread: before.thread,
                quota: quota_of(x),
            },
        };
    }
    changed.worker = workers;
    changed
}

fn put_thread(run: Run, field: u8, i: usize, x: u64) -> Run {
    let mut changed = run;
    let mut next = run.next;
    let mut status = run.status;
    let mut amounts = run.amounts;
    let mut left = run.left;
    let mut right = run.right;
    if i < 1024 {
        match field {
            9 => next[i] = word_of(x),
            10 => status[i] = byte_of(x),
            11 => amounts[i] = x,
            12 => left[i] = word_of(x),
            _ => right[i] = word_of(x),
        }
    }
    changed.next = next;
    changed.status = status;
    changed.amounts = amounts;
    changed.left = left;
    changed.right = right;
    changed
}

fn put_table(run: Run, i: usize, x: u64) -> Run {
    let mut changed = run;
    let mut table = run.table;
    if i < 36868 {
        table[i] = byte_of(x);
    }
    changed.table = table;
    changed
}

fn put(run: Run, field: u8, i: usize, x: u64) -> Run {
    let mut changed = run;
    match field {
        0 => changed.length = word_of(x),
        1 => changed.workers = byte_of(x),
        2 => changed.quota = quota_of(x),
        3 => changed.leftmost = word_of(x),
        4 => changed.busy = word_of(x),
        5 => changed.held = x,
        6 => changed.highest = x,
        7 => changed.turns = x,
        8 => return put_table(run, i, x),
        9..=13 => return put_thread(run, field, i, x),
        _ => return put_worker(run, field, i, x),
    }
    changed
}

// ---- the calls

fn tell_turning(rt: &HostRuntime, answer: Result<Taken, Refusal>) -> io::Result<()> {
    match answer {
        Ok(taken) => {
            tell_reply(rt, taken.reply)?;
            tell(rt, b" passed ", taken.passed as u64)?;
        }
        Err(x) => {
            say(rt, b"refused")?;
            tell_refusal(rt, x)?;
        }
    }
    Ok(())
}

fn call_turn(rt: &HostRuntime, run: Run) -> io::Result<Run> {
    let turned = asyncdf::turn(run, one_byte(rt)?);
    let answer = turned.answer;
    tell_turning(rt, answer)?;
    Ok(turned.run)
}

fn call_preview(rt: &HostRuntime, run: Run) -> io::Result<Run> {
    match preview::preview(run, one_byte(rt)?) {
        Ok(foreseen) => {
            say(rt, b"would ")?;
            tell_reply(rt, foreseen.reply)?;
            tell(rt, b" passed ", foreseen.passed as u64)?;
            tell(rt, b" held ", foreseen.held)?;
            tell(rt, b" highest ", foreseen.highest)?;
            tell(rt, b" quota ", foreseen.quota as u64)?;
        }
        Err(x) => {
            say(rt, b"refused")?;
            tell_refusal(rt, x)?;
        }
    }
    Ok(run)
}

// A line without its newline.
fn say_line(rt: &HostRuntime, line: &[u8; 85]) -> io::Result<()> {
    let text = &line[..];
    say_front(rt, text, 84)
}

fn call_line(rt: &HostRuntime, run: Run) -> io::Result<Run> {
    let mut line = [0u8; 85];
    let charted = chart::wall_line(run, &mut line);
    match charted {
        Ok(()) => say_line(rt, &line)?,
        Err(x) => {
            say(rt, b"refused")?;
            tell_refusal(rt, x)?;
        }
    }
    Ok(run)
}

// Reads an order that fills the buffer and prints the chart over it, without its last newline.
fn call_lines(rt: &HostRuntime, run: Run, buffer: &mut [u8]) -> io::Result<Run> {
    let n = read_full(&mut rt.stdin(), buffer)?;
    let mut text = [0u8; 21845];
    let k = listing::chart_turns(run, &buffer[..n], &mut text, 0);
    say(rt, b"chart\n")?;
    if 0 < k {
        say_front(rt, &text, k - 1)?;
    }
    Ok(run)
}

fn call_chart(rt: &HostRuntime, run: Run) -> io::Result<Run> {
    let length = wide(one_byte(rt)?);
    let mut buffer = streams::buffer();
    let n = within(length, &buffer);
    call_lines(rt, run, &mut buffer[..n])
}

fn call_order(rt: &HostRuntime, run: Run, buffer: &mut [u8]) -> io::Result<Run> {
    let n = read_full(&mut rt.stdin(), buffer)?;
    let ran = asyncdf::run_list(run, &buffer[..n]);
    let report = ran.report;
    tell_report(rt, report)?;
    Ok(ran.run)
}

fn call_list(rt: &HostRuntime, run: Run) -> io::Result<Run> {
    let length = wide(one_byte(rt)?);
    let mut buffer = streams::buffer();
    let n = within(length, &buffer);
    call_order(rt, run, &mut buffer[..n])
}

fn call_rounds(rt: &HostRuntime, run: Run) -> io::Result<Run> {
    let ran = asyncdf::run_rounds(run, quota_of(four_bytes(rt)?));
    let report = ran.report;
    tell_report(rt, report)?;
    Ok(ran.run)
}

fn call_put(rt: &HostRuntime, run: Run) -> io::Result<Run> {
    let field = one_byte(rt)?;
    let place = two_bytes(rt)?;
    let value = eight_bytes(rt)?;
    say(rt, b"changed")?;
    Ok(put(run, field, place, value))
}

fn call(rt: &HostRuntime, sort: u8, run: Run) -> io::Result<Run> {
    match sort {
        b't' => call_turn(rt, run),
        b'l' => call_list(rt, run),
        b'r' => call_rounds(rt, run),
        b'v' => call_preview(rt, run),
        b'w' => call_line(rt, run),
        b'c' => call_chart(rt, run),
        _ => call_put(rt, run),
    }
}

// ---- a pace beside the run

#[derive(Drop)]
struct Beside {
    run: Run,
    pace: Pace,
}

fn mix_pace(numbers: &[u32; 260]) -> u64 {
    let mut sum = 0;
    for x in numbers {
        sum = mix_number(sum, *x);
    }
    sum
}

// Prints the least b kept and the pace, after what a call said.
fn with_pace(rt: &HostRuntime, run: Run, pace: Pace) -> io::Result<Beside> {
    let numbers = pace.numbers;
    tell(rt, b" kept ", kept(&numbers) as u64)?;
    tell(rt, b", pace ", mix_pace(&numbers))?;
    Ok(Beside { run, pace })
}

fn call_pace(rt: &HostRuntime, run: Run) -> io::Result<Beside> {
    let p = one_byte(rt)?;
    let begun = pacing::begin_pace(p, quota_of(four_bytes(rt)?));
    let answer = begun.answer;
    tell_beginning(rt, answer)?;
    with_pace(rt, run, begun.pace)
}

fn call_paced_turn(rt: &HostRuntime, run: Run, pace: Pace) -> io::Result<Beside> {
    let turned = pacing::paced_turn(run, pace, one_byte(rt)?);
    let answer = turned.answer;
    tell_turning(rt, answer)?;
    with_pace(rt, turned.run, turned.pace)
}

fn call_paced_order(
    rt: &HostRuntime,
    run: Run,
    pace: Pace,
    buffer: &mut [u8],
) -> io::Result<Beside> {
    let n = read_full(&mut rt.stdin(), buffer)?;
    let ran = pacing::run_paced_list(run, pace, &buffer[..n]);
    let report = ran.report;
    tell_report(rt, report)?;
    with_pace(rt, ran.run, ran.pace)
}

fn call_paced_list(rt: &HostRuntime, run: Run, pace: Pace) -> io::Result<Beside> {
    let length = wide(one_byte(rt)?);
    let mut buffer = streams::buffer();
    let n = within(length, &buffer);
    call_paced_order(rt, run, pace, &mut buffer[..n])
}

fn call_paced_rounds(rt: &HostRuntime, run: Run, pace: Pace) -> io::Result<Beside> {
    let ran = pacing::run_paced_rounds(run, pace, quota_of(four_bytes(rt)?));
    let report = ran.report;
    tell_report(rt, report)?;
    with_pace(rt, ran.run, ran.pace)
}

fn call_beside(rt: &HostRuntime, sort: u8, run: Run, pace: Pace) -> io::Result<Beside> {
    match sort {
        b'b' => call_pace(rt, run),
        b'T' => call_paced_turn(rt, run, pace),
        b'L' => call_paced_list(rt, run, pace),
        b'R' => call_paced_rounds(rt, run, pace),
        _ => Ok(Beside {
            run: call(rt, sort, run)?,
            pace,
        }),
    }
}

fn calls(rt: &HostRuntime, begun: Run) -> io::Result<()> {
    let mut run = begun;
    let mut pace = Pace { numbers: [0; 260] };
    for _ in 0..1000 {
        let sort = one_byte(rt)?;
        if sort == 0 {
            return Ok(());
        }
        let after = call_beside(rt, sort, run, pace)?;
        run = after.run;
        pace = after.pace;
        tell_run(rt, run)?;
    }
    Ok(())
}

// Reads a table that fills the buffer and begins.
fn begin(rt: &HostRuntime, p: u8, quota: u32, buffer: &mut [u8]) -> io::Result<Run> {
    let n = read_full(&mut rt.stdin(), buffer)?;
    let begun = asyncdf::begin(&buffer[..n], p, quota);
    let answer = begun.answer;
    tell_beginning(rt, answer)?;
    Ok(begun.run)
}

// Copies a label that fills the buffer to the output.
fn label(rt: &HostRuntime, buffer: &mut [u8]) -> io::Result<()> {
    let n = read_full(&mut rt.stdin(), buffer)?;
    rt.stdout().write_all(&buffer[..n])?;
    rt.stdout().write_all(b": ")
}

// One record, and whether there was one.
fn one(rt: &HostRuntime) -> io::Result<bool> {
    let length = wide(one_byte(rt)?);
    if length == 0 {
        return Ok(false);
    }
    let mut name = streams::buffer();
    let k = within(length, &name);
    label(rt, &mut name[..k])?;
    let p = one_byte(rt)?;
    let quota = quota_of(four_bytes(rt)?);
    let low = two_bytes(rt)?;
    let length = low + 65536 * wide(one_byte(rt)?);
    let mut bytes = streams::large_buffer();
    let n = within(length, &bytes);
    let run = begin(rt, p, quota, &mut bytes[..n])?;
    tell_run(rt, run)?;
    calls(rt, run)?;
    Ok(true)
}

fn main(rt: HostRuntime) -> io::Result<()> {
    for _ in 0..1000 {
        if !one(&rt)? {
            return Ok(());
        }
    }
    Ok(())
}
