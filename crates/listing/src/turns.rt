// The lines of an order's turns, of a listing or of a chart: the loop of a run, with a line put after each turn and no record at its end.
ghost use Rattle.std.specs.Prelude.{◌≡◌, true, false, ◌&&◌, ◌+◌, ◌*◌, ◌≤◌, ◌<◌, length, ltb};
ghost use Rattle.table.specs.Format.{table_of};
ghost use Rattle.schedule.specs.declared.Reply.TheVariants.{Done};
ghost use Rattle.schedule.specs.Listing.{action_in, thread_in, last_with};
ghost use Rattle.schedule.specs.Record.{table_in};
ghost use Rattle.schedule.specs.Turn.{unsound};
ghost use Rattle.lines.specs.Lines.{turn_texts};
ghost use Rattle.text.specs.Puts.{Puts};
ghost use Rattle.chart.specs.Chart.{most_turns};
ghost use Rattle.schedule.specs.Parents.{Parents};
ghost use Rattle.run_memory.specs.Stands.{run_in};
ghost use Rattle.run_memory.specs.Blocks.{words_in, sums_in, memory_of};
ghost use Rattle.listing.specs.Sheets.{turns_texts, widest, line_in, figures_in, after_texts, after_size, over_texts, Drawn};

use chart::{MOST_TURNS, put_line};
use lines::{put_last, put_refused, put_turn};
use run_memory::copies::workers_out;
use run_memory::packing::pack;
use run_memory::places::{HELD, HIGHEST, NEXT, TURNS, row_at, total_at};
use run_memory::runs::ends_root;
use run_memory::turn_in;
use schedule::statuses::ENDED;
use schedule::{Reply, Run};
use table::read::{self, threads};

// The action that a reply says was done, 0 where none was.
fn action_done(reply: Reply) -> u16
    ensures { result ≡ action_in reply }
{
    match reply {
        Reply::Idle => 0,
        Reply::Done { thread: _, action } => action,
        Reply::Quota {
            thread: _,
            wanted: _,
        } => 0,
        Reply::Wait {
            thread: _,
            child: _,
        } => 0,
    }
}

// The thread that it names, 0 where it names none.
fn thread_in(reply: Reply) -> u16
    ensures { result ≡ thread_in reply }
{
    match reply {
        Reply::Idle => 0,
        Reply::Done { thread, action: _ } => thread,
        Reply::Quota { thread, wanted: _ } => thread,
        Reply::Wait { thread, child: _ } => thread,
    }
}

// The line of a turn of worker w that left these words and sums.
pub fn put_step(
    table: &[u8],
    words: &[u16; 6163],
    sums: &[u64; 1027],
    out: &mut [u8],
    at: usize,
    w: u8,
    reply: Reply,
) -> usize
    ensures { Puts out.old at out.new result
        (turn_texts (line_in (table_of table.now) w reply (words_in words.now) (sums_in sums.now))) 64 }
{
    let kind = read::kind(table, threads(table), action_done(reply) as usize);
    let next = row_at(words, NEXT, thread_in(reply));
    let held = total_at(sums, HELD);
    put_turn(out, at, total_at(sums, TURNS), w, reply, kind, next, held)
}

// What is put after a turn: the chart's line of the record, or the turn's line.
fn put_after(
    chart: bool,
    table: &[u8],
    bytes: &[u8; 1040],
    words: &[u16; 6163],
    numbers: &[u32; 18],
    sums: &[u64; 1027],
    out: &mut [u8],
    at: usize,
    p: u8,
    w: u8,
    reply: Reply,
) -> usize
    ensures { Puts out.old at out.new result
        (after_texts chart (figures_in p (memory_of bytes.now words.now numbers.now sums.now))
        (line_in (table_of table.now) w reply (words_in words.now) (sums_in sums.now)))
        (after_size chart (figures_in p (memory_of bytes.now words.now numbers.now sums.now))) }
{
    if chart {
        let workers = workers_out(bytes, words, numbers);
        let held = total_at(sums, HELD);
        return put_line(out, at, total_at(sums, TURNS), p, workers, held);
    }
    put_step(table, words, sums, out, at, w, reply)
}

// The same after a turn that did this action of this thread.
fn put_done(
    chart: bool,
    table: &[u8],
    bytes: &[u8; 1040],
    words: &[u16; 6163],
    numbers: &[u32; 18],
    sums: &[u64; 1027],
    out: &mut [u8],
    at: usize,
    p: u8,
    w: u8,
    thread: u16,
    action: u16,
) -> usize
    ensures { Puts out.old at out.new result
        (after_texts chart (figures_in p (memory_of bytes.now words.now numbers.now sums.now))
        (line_in (table_of table.now) w (Done thread action) (words_in words.now) (sums_in sums.now)))
        (after_size chart (figures_in p (memory_of bytes.now words.now numbers.now sums.now))) }
{
    let done = Reply::Done { thread, action };
    put_after(
        chart, table, bytes, words, numbers, sums, out, at, p, w, done,
    )
}

// What is put at the root's end or the order's: the last line, and of a chart nothing.
fn put_over(chart: bool, out: &mut [u8], at: usize, ended: bool, turns: u64, peak: u64) -> usize
    ensures { Puts out.old at out.new result (over_texts chart (last_with ended turns peak)) 64 }
{
    if chart {
        return at;
    }
    put_last(out, at, ended, turns, peak)
}

// The same of a run in the blocks.
pub fn put_end(chart: bool, out: &mut [u8], at: usize, ended: bool, sums: &[u64; 1027]) -> usize
    ensures { Puts out.old at out.new result
        (over_texts chart (last_with ended (sums_in sums.now).turns (sums_in sums.now).highest)) 64 }
{
    let highest = total_at(sums, HIGHEST);
    put_over(chart, out, at, ended, total_at(sums, TURNS), highest)
}

// Whether a chart has no line for so many turns.
fn too_many(chart: bool, turns: u64) -> bool
    ensures { result ≡ chart && ltb most_turns turns }
{
    chart && MOST_TURNS < turns
}

// The turns of an order, from a record whose root has not ended. `chart` is a value and no closure: `turns_texts` has it too, and three closures would each need their part of it as a contract.
fn put_each(
    chart: bool,
    table: &[u8],
    p: u8,
    order: &[u8],
    bytes: &mut [u8; 1040],
    words: &mut [u16; 6163],
    numbers: &mut [u32; 18],
    sums: &mut [u64; 1027],
    out: &mut [u8],
    at: usize,
) -> usize
    requires { Drawn chart table.now p (memory_of bytes.old words.old numbers.old sums.old) }
    ensures { Puts out.old at out.new result
        (turns_texts chart (run_in table.now (memory_of bytes.old words.old numbers.old sums.old)) order.now)
        (widest chart * (length order.now + 1)) }
{
    let mut at = at;
    for &w in order {
        let reply = match turn_in(table, w as u32, false, bytes, words, numbers, sums) {
            Err(number) => return put_refused(out, at, number as u8),
            Ok(taken) => taken.reply,
        };
        if too_many(chart, total_at(&*sums, TURNS)) {
            return put_refused(out, at, 43);
        }
        let Reply::Done { thread, action } = reply else {
            at = put_after(
                chart, table, &*bytes, &*words, &*numbers, &*sums, out, at, p, w, reply,
            );
            continue;
        };
        at = put_done(
            chart, table, &*bytes, &*words, &*numbers, &*sums, out, at, p, w, thread, action,
        );
        if ends_root(table, thread, action) {
            return put_end(chart, out, at, true, &*sums);
        }
    }
    put_end(chart, out, at, false, &*sums)
}

// The turns of an order, on a record that passed check 32.
pub(crate) fn put_turns(
    chart: bool,
    run: Run,
    parents: &[u16; 1024],
    order: &[u8],
    out: &mut [u8],
    at: usize,
) -> usize
    requires run_value { unsound run ≡ false }
    requires parents { 0 < run.workers → Parents (table_in run) parents.now }
    requires turns_le_most_turns { chart ≡ true → run.turns ≤ most_turns }
    ensures { Puts out.old at out.new result (turns_texts chart run order.now) (widest chart * (length order.now + 1)) }
{
    let status = run.status;
    if status[0] == ENDED {
        return put_over(chart, out, at, true, run.turns, run.highest);
    }
    if order.len() == 0 {
        return put_over(chart, out, at, false, run.turns, run.highest);
    }
    if run.workers == 0 {
        return put_refused(out, at, 30);
    }
    let length = run.length as usize;
    let table = run.table;
    let table = &table[..length];
    let mut bytes = [0u8; 1040];
    let mut words = [0u16; 6163];
    let mut numbers = [0u32; 18];
    let mut sums = [0u64; 1027];
    pack(
        run,
        parents,
        &mut bytes,
        &mut words,
        &mut numbers,
        &mut sums,
    );
    put_each(
        chart,
        table,
        run.workers,
        order,
        &mut bytes,
        &mut words,
        &mut numbers,
        &mut sums,
        out,
        at,
    )
}
