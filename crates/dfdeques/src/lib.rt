// DFDeques runs by value (N13): beginning, the test of a record, a single turn, a run over a list of two bytes a turn. Every call is total, and what it answers equals a definition of
// crates/deques. A turn and a run pack the record into the blocks of crates/run_memory, take their turns there (crates/stealing), and read it back.
#![tactic(auto)]

ghost use Rattle.std.specs.Prelude.{◌≡◌, Err};
ghost use Rattle.table.specs.Pass.{refusal};
ghost use Rattle.schedule.specs.declared.Report.TheVariants.{Refused as Stopped};
ghost use Rattle.schedule.specs.Answers.{beginning_values, report_values};
ghost use Rattle.schedule.specs.Values.{begin_values};
ghost use Rattle.deques.specs.DequeBegin.{deque_begin};
ghost use Rattle.deques.specs.DequeTurn.{deque_turned as turned_of};
ghost use Rattle.deques.specs.DequeRuns.{deque_ran, pairs_run};
ghost use Rattle.deques.specs.DequeValues.{deque_turning_values, deque_turn_values, pairs_values};

use asyncdf::report_of;
use deques::{DequeBegun, DequeRan, DequeRun, DequeTurned};
use links::NO_THREAD;
use packing::{pack_deques, unpack_deques};
use schedule::Report;
use stealing::deque_turn_in;
use stealing::runs::deque_list_in;
use table::Refusal;
use testing::deque_test;

pub mod packing;
pub mod testing;

// Beginning from a table's bytes, p and K: AsyncDF's checks and its record, beside it the root as the only bottom.
pub fn deque_begin(bytes: &[u8], p: u8, quota: u32) -> DequeBegun
    ensures value { result ≡ deque_begin bytes.now p quota }
    ensures answer_value { beginning_values result.answer ≡ begin_values bytes.now p quota }
{
    let begun = asyncdf::begin(bytes, p, quota);
    let answer = begun.answer;
    let run = begun.run;
    if let Err(x) = answer {
        return DequeBegun {
            answer: Err(x),
            run: DequeRun {
                run,
                under: [0; 1024],
                over: [0; 1024],
                first: 0,
            },
        };
    }
    DequeBegun {
        answer: Ok(()),
        run: DequeRun {
            run,
            under: [NO_THREAD; 1024],
            over: [NO_THREAD; 1024],
            first: 0,
        },
    }
}

fn refused(number: u8, run: DequeRun) -> DequeTurned
    ensures { result ≡ record { answer = Err (refusal number 0); run = run } }
{
    DequeTurned {
        answer: Err(Refusal { number, place: 0 }),
        run,
    }
}

// A single turn of worker w with choice c: 32, 30, 31, 49, or the reply and the record after.
pub fn deque_turn(run: DequeRun, w: u8, c: u8) -> DequeTurned
    ensures value { result ≡ turned_of run w c }
    ensures answer_value { deque_turning_values result.answer ≡ deque_turn_values run w c }
{
    let Some(parents) = deque_test(run) else {
        return refused(32, run);
    };
    let record = run.run;
    let length = record.length as usize;
    let table = record.table;
    let table = &table[..length];
    let mut bytes = [0u8; 1040];
    let mut words = [0u16; 6163];
    let mut numbers = [0u32; 18];
    let mut sums = [0u64; 1027];
    pack_deques(
        run,
        &parents,
        &mut bytes,
        &mut words,
        &mut numbers,
        &mut sums,
    );
    let spoken = deque_turn_in(
        table,
        w as u32,
        c as u32,
        &mut bytes,
        &mut words,
        &mut numbers,
        &mut sums,
    );
    match spoken {
        Err(number) => refused(number as u8, run),
        Ok(reply) => DequeTurned {
            answer: Ok(reply),
            run: unpack_deques(run, &bytes, &words, &numbers, &sums),
        },
    }
}

// A run that check 32 refuses.
fn unsound(run: DequeRun) -> DequeRan
    ensures { result ≡ deque_ran (Stopped 0 (refusal 32 0)) run }
{
    DequeRan {
        report: Report::Refused(
            0,
            Refusal {
                number: 32,
                place: 0,
            },
        ),
        run,
    }
}

// A run over a list, two bytes a turn: worker and choice; an odd last byte isn't read.
pub fn run_pairs(run: DequeRun, order: &[u8]) -> DequeRan
    ensures value { result ≡ pairs_run run order.now }
    ensures report_value { report_values result.report ≡ pairs_values run order.now }
{
    let Some(parents) = deque_test(run) else {
        return unsound(run);
    };
    let record = run.run;
    let length = record.length as usize;
    let table = record.table;
    let table = &table[..length];
    let mut bytes = [0u8; 1040];
    let mut words = [0u16; 6163];
    let mut numbers = [0u32; 18];
    let mut sums = [0u64; 1027];
    pack_deques(
        run,
        &parents,
        &mut bytes,
        &mut words,
        &mut numbers,
        &mut sums,
    );
    let stop = deque_list_in(
        table,
        order,
        &mut bytes,
        &mut words,
        &mut numbers,
        &mut sums,
    );
    let report = report_of(stop.finished, stop.turns);
    let after = unpack_deques(run, &bytes, &words, &numbers, &sums);
    DequeRan { report, run: after }
}
