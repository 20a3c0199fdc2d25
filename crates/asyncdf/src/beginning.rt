// The record of an accepted beginning, and the blank one.
ghost use Rattle.std.specs.Prelude.{◌≡◌, ◌≤◌, length, replicate};
ghost use Rattle.table.specs.Format.{table_of};
ghost use Rattle.schedule.specs.Record.{blank as blank_run};
ghost use Rattle.order.specs.Words.{filled};
ghost use Rattle.schedule.specs.Begin.{start_run};
ghost use Rattle.order.specs.Firsts.{firsts};

use links::NO_THREAD;
use schedule::{Run, Worker};

const NOBODY: Worker = Worker {
    holds: false,
    thread: 0,
    quota: 0,
};

pub(crate) fn blank() -> Run
    ensures { result ≡ blank_run }
{
    Run {
        table: [0; 36868],
        length: 0,
        workers: 0,
        quota: 0,
        next: [0; 1024],
        status: [0; 1024],
        amounts: [0; 1024],
        left: [0; 1024],
        right: [0; 1024],
        leftmost: 0,
        worker: [NOBODY; 16],
        busy: 0,
        held: 0,
        highest: 0,
        turns: 0,
    }
}

// Copies the bytes to the front of an array of zeros.
fn copy(bytes: &[u8], out: &mut [u8; 36868])
    requires { (length bytes.now ≤ 36868) × (out.old ≡ replicate 36868 0) }
    ensures { out.new ≡ filled 36868 bytes.now }
{
    for i in 0..bytes.len() {
        out[i] = bytes[i];
    }
}

// The record of an accepted beginning, from the threads' next actions.
pub(crate) fn start(bytes: &[u8], next: [u16; 1024], p: u8, quota: u32) -> Run
    requires bytes_len_bound { length bytes.now ≤ 36868 }
    requires next_value { next ≡ filled 1024 (firsts (table_of bytes.now).first 0 (table_of bytes.now).threads) }
    ensures { result ≡ start_run bytes.now p quota }
{
    let mut table = [0u8; 36868];
    copy(bytes, &mut table);
    let mut status = [0u8; 1024];
    status[0] = 1;
    Run {
        table,
        length: bytes.len() as u16,
        workers: p,
        quota,
        next,
        status,
        amounts: [0; 1024],
        left: [NO_THREAD; 1024],
        right: [NO_THREAD; 1024],
        leftmost: 0,
        worker: [NOBODY; 16],
        busy: 0,
        held: 0,
        highest: 0,
        turns: 0,
    }
}
