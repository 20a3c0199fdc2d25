// What a turn said, and where a run stopped, as rows of numbers that C reads.
ghost use Rattle.std.specs.Prelude.{◌≡◌};
ghost use Rattle.run_memory.specs.Memory.{said_code, reply_row, said_at, run_row, number_in};

use crate::runs::Stop;
use schedule::Reply;

pub fn put_reply(row: &mut [u64; 5], reply: Reply, passed: u16)
    ensures { row.new ≡ reply_row reply passed }
{
    match reply {
        Reply::Idle => {
            *row = [0, 1, 0, 0, passed as u64];
        }
        Reply::Done { thread, action } => {
            *row = [0, 2, thread as u64, action as u64, passed as u64];
        }
        Reply::Quota { thread, wanted } => {
            *row = [0, 3, thread as u64, wanted as u64, passed as u64];
        }
        Reply::Wait { thread, child } => {
            *row = [0, 4, thread as u64, child as u64, passed as u64];
        }
    }
}

// what is said of a run, as a number
const NOTHING: u64 = 0;

const FINISHED: u64 = 6;

const SPENT: u64 = 7;

fn said(finished: &Result<bool, u32>) -> u64
    ensures { result ≡ said_code (said_at finished.now) }
{
    match finished {
        Err(_) => NOTHING,
        Ok(true) => FINISHED,
        Ok(false) => SPENT,
    }
}

// Puts what is said of a run into the row, and answers the refusal's number.
pub fn put_run(row: &mut [u64; 3], stop: Stop) -> u32
    ensures value { result ≡ number_in stop.finished }
    ensures row_after { row.new ≡ run_row (said_at stop.finished) stop.turns }
{
    *row = [0, said(&stop.finished), stop.turns];
    match stop.finished {
        Ok(_) => 0,
        Err(number) => number,
    }
}
