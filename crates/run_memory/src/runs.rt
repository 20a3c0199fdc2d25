// Runs over a list of workers and in rounds, in the lent memory of a run, whatever it holds: the one loop that takes turns for a call by value and for one from C.
ghost use Rattle.std.specs.Prelude.{◌≡◌, ℕ, true, ◌<◌, length, get_or, eqb, Err, Ok};
ghost use Rattle.table.specs.Sum.{pick};
ghost use Rattle.table.specs.Format.{table_of};
ghost use Rattle.schedule.specs.Machine.{ended};
ghost use Rattle.schedule.specs.Runs.{worker_at};
ghost use Rattle.run_memory.specs.Blocks.{bytes_in, numbers_in, memory_of};
ghost use Rattle.run_memory.specs.Runs.{stopped_at, ends_root, drive_in, list_run_in, rounds_run_in};

use crate::places::{TURNS, WORKERS, setting_at, total_at};
use crate::rounds::following;
use crate::turn_in;
use schedule::Reply;
use schedule::statuses::ENDED;
use table::kinds::END;
use table::read::{byte, code, threads};

// Where a run stopped: whether at the root's end, or a refusal's number; and the turns that it took.
#[derive(Drop)]
pub struct Stop {
    pub finished: Result<bool, u32>,
    pub turns: u64,
}

// A refusal after i turns.
pub fn refused(number: u32, i: usize) -> Stop
    ensures { result ≡ record { finished = Err number; turns = i } }
{
    Stop {
        finished: Err(number),
        turns: i as u64,
    }
}

// The run is over after i turns, at the root's end or not.
pub fn over(finished: bool, i: usize) -> Stop
    ensures { result ≡ record { finished = Ok finished; turns = i } }
{
    Stop {
        finished: Ok(finished),
        turns: i as u64,
    }
}

// The root has ended. A part's length is known to the proof, an array's is not: the root has a place.
pub fn root_ended(bytes: &[u8; 1040]) -> bool
    ensures value { result ≡ eqb (get_or (bytes_in bytes.now).status 0 0) ended }
    ensures status_nonzero { 0 < length (bytes_in bytes.now).status }
{
    let places = &bytes[..];
    places[0] == ENDED
}

// Whether the action that a turn did is the root's end, from the thread and the action that its reply names.
pub fn ends_root(table: &[u8], thread: u16, action: u16) -> bool
    ensures { result ≡ ends_root (table_of table.now) thread action }
{
    if thread != 0 {
        return false;
    }
    code(table, threads(table), action as usize) == END
}

// The worker whose turn comes after i turns: from the order, or in rounds the one that is next. The order and the rounds as data: a closure would carry the worker that is next from turn to turn,
// with a clause on it, for one `if`.
fn worker_of(order: &[u8], rounds: bool, next: u32, i: usize) -> u32
    ensures { result ≡ pick rounds next (get_or order.now i 0) }
{
    if rounds { next } else { byte(order, i) as u32 }
}

// At most `limit` turns. Each reply is taken apart, and the thread and the action that it names say whether the root ended.
fn drive(
    table: &[u8],
    order: &[u8],
    rounds: bool,
    limit: usize,
    bytes: &mut [u8; 1040],
    words: &mut [u16; 6163],
    numbers: &mut [u32; 18],
    sums: &mut [u64; 1027],
) -> Stop
    requires { rounds ≡ true → 0 < (numbers_in numbers.old).workers }
    ensures nonzero { (n : ℕ) → result.finished ≡ Err n → n ≡ 0 → ⊥ }
    ensures run_value { stopped_at result (memory_of bytes.new words.new numbers.new sums.new)
        ≡ drive_in table.now (worker_at order.now rounds (numbers_in numbers.old).workers) limit 0 (memory_of bytes.old words.old numbers.old sums.old) }
{
    if root_ended(&*bytes) {
        return over(true, 0);
    }
    let p = setting_at(&*numbers, WORKERS);
    let mut next: u32 = 0;
    for i in 0..limit {
        let w = worker_of(order, rounds, next, i);
        next = following(p, next);
        let taken = match turn_in(table, w, false, bytes, words, numbers, sums) {
            Ok(taken) => taken,
            Err(number) => return refused(number, i),
        };
        let Reply::Done { thread, action } = taken.reply else {
            continue;
        };
        if ends_root(table, thread, action) {
            return over(true, i + 1);
        }
    }
    over(false, limit)
}

// A run over a list of workers.
pub fn list_in(
    table: &[u8],
    order: &[u8],
    bytes: &mut [u8; 1040],
    words: &mut [u16; 6163],
    numbers: &mut [u32; 18],
    sums: &mut [u64; 1027],
) -> Stop
    ensures nonzero { (n : ℕ) → result.finished ≡ Err n → n ≡ 0 → ⊥ }
    ensures run_value { stopped_at result (memory_of bytes.new words.new numbers.new sums.new)
        ≡ list_run_in table.now order.now (memory_of bytes.old words.old numbers.old sums.old) }
{
    if total_at(&*sums, TURNS) == u64::MAX {
        return refused(32, 0);
    }
    drive(
        table,
        order,
        false,
        order.len(),
        bytes,
        words,
        numbers,
        sums,
    )
}

// A run in rounds, of at most `limit` turns.
pub fn rounds_in(
    table: &[u8],
    limit: u32,
    bytes: &mut [u8; 1040],
    words: &mut [u16; 6163],
    numbers: &mut [u32; 18],
    sums: &mut [u64; 1027],
) -> Stop
    ensures nonzero { (n : ℕ) → result.finished ≡ Err n → n ≡ 0 → ⊥ }
    ensures run_value { stopped_at result (memory_of bytes.new words.new numbers.new sums.new)
        ≡ rounds_run_in table.now limit (memory_of bytes.old words.old numbers.old sums.old) }
{
    if total_at(&*sums, TURNS) == u64::MAX {
        return refused(32, 0);
    }
    if setting_at(&*numbers, WORKERS) == 0 {
        return refused(30, 0);
    }
    drive(
        table,
        b"",
        true,
        limit as usize,
        bytes,
        words,
        numbers,
        sums,
    )
}
