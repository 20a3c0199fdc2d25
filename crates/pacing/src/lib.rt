// A pace beside a run, by value: beginning one, a paced turn, paced runs over a list of workers and in rounds. Every call is total, and what it answers equals a definition of specs/Pacing. A turn is
// that of crates/asyncdf; a run packs the record into the blocks of crates/run_memory, takes its turns there as a call from C does (crates/wivakkol_pace), and reads it back.
#![tactic(auto)]

ghost use Rattle.std.specs.Prelude.{◌≡◌, Err};
ghost use Rattle.table.specs.Pass.{refusal};
ghost use Rattle.schedule.specs.declared.Report.TheVariants.{Refused as Stopped};
ghost use Rattle.schedule.specs.Answers.{beginning_values, turning_values, report_values};
ghost use Rattle.wivakkol_pace.specs.PacedRuns.{paced_worker};
ghost use Rattle.pacing.specs.Pacing.{begin_pace, paced_turn, paced_turned, paced_ran, paced_run, paced_list_run, paced_rounds_run};
ghost use Rattle.pacing.specs.PacedValues.{pace_values, paced_turn_values, paced_list_values, paced_rounds_values};

use asyncdf::{report_of, turn};
use pace::{hinders, start, took};
use run_memory::packing::{pack, unpack};
use schedule::{Report, Run, Taken};
use soundness::test;
use table::Refusal;
use wivakkol_pace::runs::run_in;

// The numbers of a pace (crates/pace): pace::may, pace::kept and pace::next read them.
#[derive(Drop)]
pub struct Pace {
    pub numbers: [u32; 260],
}

// A pace begun; where that is refused, every number is 0.
#[derive(Drop)]
pub struct PaceBegun {
    pub answer: Result<(), Refusal>,
    pub pace: Pace,
}

#[derive(Drop)]
pub struct PacedTurned {
    pub answer: Result<Taken, Refusal>,
    pub run: Run,
    pub pace: Pace,
}

#[derive(Drop)]
pub struct PacedRan {
    pub report: Report,
    pub run: Run,
    pub pace: Pace,
}

// Beginning a pace for p workers and b: 20 where p is not 1 to 16, 41 where b is not 1 to 65,535.
pub fn begin_pace(p: u8, b: u32) -> PaceBegun
    ensures value { result ≡ begin_pace p b }
    ensures answer_value { beginning_values result.answer ≡ pace_values p b }
{
    let mut numbers = [0u32; 260];
    let number = start(p as u32, b, &mut numbers);
    if number != 0 {
        let number = number as u8;
        return PaceBegun {
            answer: Err(Refusal { number, place: 0 }),
            pace: Pace { numbers },
        };
    }
    PaceBegun {
        answer: Ok(()),
        pace: Pace { numbers },
    }
}

// A turn that the pace does not let through: record and pace as they were.
fn held_back(run: Run, pace: Pace, number: u8) -> PacedTurned
    ensures { result ≡ paced_turn (Err (refusal number 0)) run pace }
{
    PacedTurned {
        answer: Err(Refusal { number, place: 0 }),
        run,
        pace,
    }
}

// A turn of worker w, counted: 32, 30, 31; then 30 where the pace has no such worker, 60 where it would break the rule with b; or the reply, and record and pace after.
pub fn paced_turn(run: Run, pace: Pace, w: u8) -> PacedTurned
    ensures value { result ≡ paced_turned run pace w }
    ensures answer_value { turning_values result.answer ≡ paced_turn_values run pace w }
{
    let turned = turn(run, w);
    let answer = turned.answer;
    let after = turned.run;
    if answer.is_err() {
        return PacedTurned {
            answer,
            run: after,
            pace,
        };
    }
    let mut numbers = pace.numbers;
    let number = hinders(&numbers, w as u32);
    if number != 0 {
        return held_back(run, pace, number as u8);
    }
    took(&mut numbers, w as u32);
    PacedTurned {
        answer,
        run: after,
        pace: Pace { numbers },
    }
}

// A run that check 32 refuses.
fn unsound(run: Run, pace: Pace) -> PacedRan
    ensures { result ≡ paced_ran (Stopped 0 (refusal 32 0)) run pace }
{
    PacedRan {
        report: Report::Refused(
            0,
            Refusal {
                number: 32,
                place: 0,
            },
        ),
        run,
        pace,
    }
}

// At most `limit` turns, over the order or in rounds.
fn paced_run(run: Run, pace: Pace, order: &[u8], rounds: bool, limit: usize) -> PacedRan
    ensures { result ≡ paced_run (paced_worker order.now rounds) rounds limit run pace }
{
    let Some(parents) = test(run) else {
        return unsound(run, pace);
    };
    let length = run.length as usize;
    let table = run.table;
    let table = &table[..length];
    let mut bytes = [0u8; 1040];
    let mut words = [0u16; 6163];
    let mut numbers = [0u32; 18];
    let mut sums = [0u64; 1027];
    let mut counters = pace.numbers;
    pack(
        run,
        &parents,
        &mut bytes,
        &mut words,
        &mut numbers,
        &mut sums,
    );
    let stop = run_in(
        table,
        order,
        rounds,
        limit,
        &mut bytes,
        &mut words,
        &mut numbers,
        &mut sums,
        &mut counters,
    );
    let report = report_of(stop.finished, stop.turns);
    let after = unpack(run, &bytes, &words, &numbers, &sums);
    PacedRan {
        report,
        run: after,
        pace: Pace { numbers: counters },
    }
}

// A paced run over a list of workers.
pub fn run_paced_list(run: Run, pace: Pace, order: &[u8]) -> PacedRan
    ensures value { result ≡ paced_list_run run pace order.now }
    ensures report_value { report_values result.report ≡ paced_list_values run pace order.now }
{
    paced_run(run, pace, order, false, order.len())
}

// A paced run in rounds, of at most `limit` turns, that goes on after the worker of the latest turn.
pub fn run_paced_rounds(run: Run, pace: Pace, limit: u32) -> PacedRan
    ensures value { result ≡ paced_rounds_run run pace limit }
    ensures report_value { report_values result.report ≡ paced_rounds_values run pace limit }
{
    paced_run(run, pace, b"", true, limit as usize)
}
