// AsyncDF runs by value: beginning, a single turn, runs over a list of workers and in rounds. Every call is total, and what it answers equals a definition of crates/schedule. A turn and a run
// pack the record into the blocks of crates/run_memory, take their turns there, and read it back.
#![tactic(auto)]

ghost use Rattle.std.specs.Prelude.{◌≡◌, ℕ, Err};
ghost use Rattle.std.specs.Int.Count.{ones};
ghost use Rattle.table.specs.Pass.{refusal};
ghost use Rattle.schedule.specs.declared.Report.TheVariants.{Refused as Stopped};
ghost use Rattle.schedule.specs.Answers.{beginning_values, turning_values, report_values};
ghost use Rattle.schedule.specs.Values.{begin_values, turn_values, list_values, rounds_values};
ghost use Rattle.schedule.specs.Begin.{begin as begin_of};
ghost use Rattle.schedule.specs.Machine.{worker_of};
ghost use Rattle.schedule.specs.Record.{state_of};
ghost use Rattle.schedule.specs.Sound.{Steady};
ghost use Rattle.order.specs.Words.{count_below};
ghost use Rattle.schedule.specs.Turn.{turned as turned_of};
ghost use Rattle.schedule.specs.Runs.{ran, list_run, rounds_run};
ghost use Rattle.run_memory.specs.Blocks.{memory_of};
ghost use Rattle.run_memory.specs.Memory.{number_in};
ghost use Rattle.run_memory.specs.Runs.{stopped_at};
ghost use Rattle.asyncdf.specs.Orders.{run_as, stop_as, report_at};

use crate::beginning::{blank, start};
use run_memory::packing::{pack, unpack};
use run_memory::runs::{Stop, list_in, rounds_in};
use run_memory::turn_in;
use schedule::{Begun, Ran, Report, Run, Turned};
use soundness::{accept, test};
use table::Refusal;

mod beginning;

// Beginning from a table's bytes, p and K: the table's own checks, then 20, 21 and 44. The record is of the filled-out table, which is the table as given where nothing is above K.
pub fn begin(bytes: &[u8], p: u8, quota: u32) -> Begun
    ensures value { result ≡ begin_of bytes.now p quota }
    ensures answer_value { beginning_values result.answer ≡ begin_values bytes.now p quota }
{
    let mut next = [0u16; 1024];
    let mut parents = [0u16; 1024];
    let mut filled = [0u8; 36868];
    let accepted = accept(bytes, p, quota, &mut filled[..], &mut next, &mut parents);
    let k = match accepted {
        Err(x) => {
            return Begun {
                answer: Err(x),
                run: blank(),
            };
        }
        Ok(k) => k,
    };
    if k == 0 {
        return Begun {
            answer: Ok(()),
            run: start(bytes, next, p, quota),
        };
    }
    Begun {
        answer: Ok(()),
        run: start(&filled[..k], next, p, quota),
    }
}

fn refused(number: u8, run: Run) -> Turned
    ensures { result ≡ record { answer = Err (refusal number 0); run = run } }
{
    Turned {
        answer: Err(Refusal { number, place: 0 }),
        run,
    }
}

// A single turn of worker w: 32, 30, 31, or the reply, how many threads stood left of one that it took, and the record after.
pub fn turn(run: Run, w: u8) -> Turned
    ensures value { result ≡ turned_of run w }
    ensures answer_value { turning_values result.answer ≡ turn_values run w }
{
    let Some(parents) = test(run) else {
        return refused(32, run);
    };
    let length = run.length as usize;
    let table = run.table;
    let table = &table[..length];
    let mut bytes = [0u8; 1040];
    let mut words = [0u16; 6163];
    let mut numbers = [0u32; 18];
    let mut sums = [0u64; 1027];
    pack(
        run,
        &parents,
        &mut bytes,
        &mut words,
        &mut numbers,
        &mut sums,
    );
    let spoken = turn_in(
        table,
        w as u32,
        true,
        &mut bytes,
        &mut words,
        &mut numbers,
        &mut sums,
    );
    match spoken {
        Err(number) => refused(number as u8, run),
        Ok(taken) => Turned {
            answer: Ok(taken),
            run: unpack(run, &bytes, &words, &numbers, &sums),
        },
    }
}

// A run that check 32 refuses.
fn unsound(run: Run) -> Ran
    ensures { result ≡ ran (Stopped 0 (refusal 32 0)) run }
{
    Ran {
        report: Report::Refused(
            0,
            Refusal {
                number: 32,
                place: 0,
            },
        ),
        run,
    }
}

// The report of a run that stopped: whether at the root's end, or a refusal's number; and the turns that it took.
pub fn report_of(finished: Result<bool, u32>, turns: u64) -> Report
    ensures { result ≡ report_at finished turns }
{
    match finished {
        Ok(true) => Report::Finished(turns),
        Ok(false) => Report::Spent(turns),
        Err(number) => {
            let number = (number % 256) as u8;
            Report::Refused(turns, Refusal { number, place: 0 })
        }
    }
}

// Whose turns a run takes: of the workers of a list, or of each in rounds, of at most so many turns.
#[derive(Clone, Copy)]
enum Order<'a> {
    Listed(&'a [u8]),
    Rounds(u32),
}

// A run in the blocks.
fn stop_in(
    table: &[u8],
    order: Order,
    bytes: &mut [u8; 1040],
    words: &mut [u16; 6163],
    numbers: &mut [u32; 18],
    sums: &mut [u64; 1027],
) -> Stop
    ensures nonzero { (n : ℕ) → result.finished ≡ Err n → n ≡ 0 → ⊥ }
    ensures run_value { stopped_at result (memory_of bytes.new words.new numbers.new sums.new)
        ≡ stop_as table.now order.entry (memory_of bytes.old words.old numbers.old sums.old) }
{
    match order {
        Order::Listed(list) => list_in(table, list, bytes, words, numbers, sums),
        Order::Rounds(limit) => rounds_in(table, limit, bytes, words, numbers, sums),
    }
}

// A run over a list or in rounds.
fn run_by(run: Run, order: Order) -> Ran
    ensures { result ≡ run_as run order.entry }
{
    let Some(parents) = test(run) else {
        return unsound(run);
    };
    let length = run.length as usize;
    let table = run.table;
    let table = &table[..length];
    let mut bytes = [0u8; 1040];
    let mut words = [0u16; 6163];
    let mut numbers = [0u32; 18];
    let mut sums = [0u64; 1027];
    pack(
        run,
        &parents,
        &mut bytes,
        &mut words,
        &mut numbers,
        &mut sums,
    );
    let stop = stop_in(
        table,
        order,
        &mut bytes,
        &mut words,
        &mut numbers,
        &mut sums,
    );
    let report = report_of(stop.finished, stop.turns);
    let after = unpack(run, &bytes, &words, &numbers, &sums);
    Ran { report, run: after }
}

// A run over a list of workers.
pub fn run_list(run: Run, order: &[u8]) -> Ran
    ensures value { result ≡ list_run run order.now }
    ensures report_value { report_values result.report ≡ list_values run order.now }
{
    run_by(run, Order::Listed(order))
}

// A run in rounds, of at most `limit` turns.
pub fn run_rounds(run: Run, limit: u32) -> Ran
    ensures value { result ≡ rounds_run run limit }
    ensures report_value { report_values result.report ≡ rounds_values run limit }
{
    run_by(run, Order::Rounds(limit))
}

// The number busy: of a record that is sound, turns taken apart, the workers that hold a thread.
pub fn number_busy(run: Run) -> u32
    ensures value { result ≡ ones run.busy }
    ensures value_2 { Steady run → result ≡ count_below (λ w. (worker_of (state_of run) w).holds) 16 }
{
    u16::count_ones(run.busy)
}
