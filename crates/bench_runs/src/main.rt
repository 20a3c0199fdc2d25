// Does one call again and again, for bench/bench.py to measure. Standard input: what to do (1 byte: 'l' load the table; 'r' a run in rounds of L turns from the
// beginning; 's' a single turn of worker 0 on the record after L turns), how often (4 bytes), then p, K, L and the table as runrounds has them. Prints what was done, how often, and
// a total over the answers. What a call is given depends on the total so far, so that the compiler can leave none out.
#![tactic(auto)]

ghost use Rattle.std.specs.Prelude.{◌<◌};

use schedule::{Reply, Report, Run};
use std::io;
use std::io::Write;
use streams::read_full;

fn wide(x: u8) -> u32
    ensures { result < 256 }
{
    x as u32
}

fn three(a: u8, b: u8, c: u8) -> u32
    ensures { result < 16777216 }
{
    wide(a) + 256 * wide(b) + 65536 * wide(c)
}

fn four(a: u8, b: u8, c: u8, d: u8) -> u32 {
    three(a, b, c) + 16777216 * wide(d)
}

fn load_once(bytes: &[u8], total: u64) -> u64 {
    if total == u64::MAX {
        return 0;
    }
    let loaded = facts::load(bytes);
    match loaded {
        Ok(facts) => facts.depth as u64 + facts.nested as u64,
        Err(refusal) => refusal.number as u64,
    }
}

fn reply_value(reply: Reply) -> u64 {
    match reply {
        Reply::Idle => 1,
        Reply::Done {
            thread: _,
            action: _,
        } => 2,
        Reply::Quota {
            thread: _,
            wanted: _,
        } => 3,
        Reply::Wait {
            thread: _,
            child: _,
        } => 4,
    }
}

fn turn_once(run: Run, total: u64) -> u64 {
    let w: u8 = if total == u64::MAX { 1 } else { 0 };
    let turned = asyncdf::turn(run, w);
    let answer = turned.answer;
    match answer {
        Ok(taken) => { std::num::wrapping_add_u64(reply_value(taken.reply), taken.passed as u64) }
        Err(refusal) => refusal.number as u64,
    }
}

fn rounds_once(run: Run, limit: u32, total: u64) -> u64 {
    let turns: u32 = if total == u64::MAX { 0 } else { limit };
    let ran = asyncdf::run_rounds(run, turns);
    let report = ran.report;
    match report {
        Report::Finished(k) => k,
        Report::Spent(k) => k,
        Report::Refused(_, refusal) => refusal.number as u64,
    }
}

fn once(mode: u8, run: Run, limit: u32, bytes: &[u8], total: u64) -> u64 {
    match mode {
        b'l' => load_once(bytes, total),
        b's' => turn_once(run, total),
        _ => rounds_once(run, limit, total),
    }
}

fn repeated(mode: u8, count: u32, run: Run, limit: u32, bytes: &[u8]) -> u64 {
    let mut total: u64 = 0;
    for _ in 0..count {
        total = std::num::wrapping_add_u64(total, once(mode, run, limit, bytes, total));
    }
    total
}

// The record that the calls begin from.
fn start(mode: u8, p: u8, quota: u32, limit: u32, bytes: &[u8]) -> Run {
    let begun = asyncdf::begin(bytes, p, quota);
    let run = begun.run;
    if mode != b's' {
        return run;
    }
    let ran = asyncdf::run_rounds(run, limit);
    ran.run
}

fn print(rt: &HostRuntime, mode: u8, count: u32, total: u64) -> io::Result<()> {
    let name = [mode];
    rt.stdout().write_all(&name)?;
    rt.stdout().write_all(b" ")?;
    print!(rt; "{count}")?;
    rt.stdout().write_all(b" ")?;
    print!(rt; "{total}")?;
    rt.stdout().write_all(b"\n")
}

fn main(rt: HostRuntime) -> io::Result<()> {
    let mut head = [0u8; 13];
    if read_full(&mut rt.stdin(), &mut head)? < 13 {
        rt.stdout().write_all(b"refused 33 0\n")?;
        return Ok(());
    }
    let mut buffer = streams::large_buffer();
    let n = read_full(&mut rt.stdin(), &mut buffer)?;
    let count = four(head[1], head[2], head[3], head[4]);
    let quota = three(head[6], head[7], head[8]);
    let limit = four(head[9], head[10], head[11], head[12]);
    let run = start(head[0], head[5], quota, limit, &buffer[..n]);
    let total = repeated(head[0], count, run, limit, &buffer[..n]);
    print(&rt, head[0], count, total)
}
