// A turn of DFDeques (N13) on the lent memory of a run, whatever it holds: no call traps, and what a turn leaves equals a definition (specs/StealingMemory). The memory is AsyncDF's four blocks
// (crates/run_memory, specs/Blocks): its list has the lines, its second list the bottoms.
#![tactic(auto)]

ghost use Rattle.std.specs.Prelude.{◌≡◌, not, ◌&&◌, ℕ, ◌+◌, ◌^◌, ◌<◌, length, get_or, ltb, eqb, Err};
ghost use Rattle.schedule.specs.Machine.{ready, ended};
ghost use Rattle.run_memory.specs.Memory.{told, turn_in, unless, number_in};
ghost use Rattle.run_memory.specs.Memory.{hindrance as hindrance_of};
ghost use Rattle.run_memory.specs.Blocks.{bytes_in, numbers_in, sums_in, memory_of};
ghost use Rattle.run_memory.specs.Places.{totalled};
ghost use Rattle.stealing.specs.StealingMemory.{said_in, deque_hindrance, deque_taken_in, deque_turn_in};
ghost use Rattle.stealing.specs.Code.{Going};

use crate::actions::action_fits;
use crate::bottoms::bottom_at;
use crate::moves::{end, fork, leave, steal};
use array_machine::fits::fork_fits;
use array_machine::room_for;
use links::NO_THREAD;
use run_memory::places::{
    BUSY, NEXT, TURNS, WORKERS, head_at, holds_at, put_total, row_at, setting_at, status_at,
    thread_at, total_at,
};
use run_memory::{hindrance as before_choice, turn_in};
use schedule::Reply;
use schedule::statuses::{ENDED, READY, WAITING};
use table::kinds::{END, FORK, JOIN};
use table::read::{argument_in, bodies, code_in, threads};

mod actions;
mod bottoms;
mod moves;
pub mod runs;

// One turn more is taken.
fn count(sums: &mut [u64; 1027])
    requires { (sums_in sums.old).turns + 1 < 2 ^ 64 }
    ensures { sums_in sums.new ≡ totalled 2 ((sums_in sums.old).turns + 1) (sums_in sums.old) }
{
    let turns = total_at(&*sums, TURNS);
    put_total(sums, TURNS, turns + 1);
}

// The joined thread is one of the arrays' and has not ended.
fn runs_on(bytes: &[u8; 1040], x: usize) -> bool
    ensures { result ≡ (ltb x 1024 && not (eqb (get_or (bytes_in bytes.now).status x 0) ended)) }
{
    if 1024 <= x {
        return false;
    }
    status_at(bytes, x as u16) != ENDED
}

// AsyncDF's turn of a worker that holds a thread.
fn plain(
    table: &[u8],
    w: u32,
    bytes: &mut [u8; 1040],
    words: &mut [u16; 6163],
    numbers: &mut [u32; 18],
    sums: &mut [u64; 1027],
) -> Result<Reply, u32>
    ensures nonzero { (n : ℕ) → result ≡ Err n → n ≡ 0 → ⊥ }
    ensures turn_value { told (number_in result) (said_in result) (memory_of bytes.new words.new numbers.new sums.new)
        ≡ turn_in table.now w (memory_of bytes.old words.old numbers.old sums.old) }
{
    match turn_in(table, w, false, bytes, words, numbers, sums) {
        Ok(taken) => Ok(taken.reply),
        Err(number) => Err(number),
    }
}

// Worker w goes on with the thread that it holds.
fn go_on(
    table: &[u8],
    w: u32,
    bytes: &mut [u8; 1040],
    words: &mut [u16; 6163],
    numbers: &mut [u32; 18],
    sums: &mut [u64; 1027],
) -> Result<Reply, u32>
    requires { Going (memory_of bytes.old words.old numbers.old sums.old) w }
    ensures nonzero { (n : ℕ) → result ≡ Err n → n ≡ 0 → ⊥ }
    ensures turn_value { (c : ℕ) → told (number_in result) (said_in result) (memory_of bytes.new words.new numbers.new sums.new)
        ≡ deque_taken_in table.now w c (memory_of bytes.old words.old numbers.old sums.old) }
{
    let t = thread_at(&*words, w as usize);
    if NO_THREAD <= t {
        return Err(32);
    }
    let a = row_at(&*words, NEXT, t);
    let actions = bodies(table, threads(table));
    let code = code_in(actions, a as usize);
    if code == END {
        end(actions, t, w as usize, bytes, words, numbers);
        count(sums);
        return Ok(Reply::Done {
            thread: t,
            action: a,
        });
    }
    if code == FORK {
        let x = argument_in(actions, a as usize);
        if !fork_fits(a, x) {
            return Err(32);
        }
        fork(x as u16, a, w as usize, t, bytes, words, &*numbers);
        count(sums);
        return Ok(Reply::Done {
            thread: t,
            action: a,
        });
    }
    if code == JOIN {
        let x = argument_in(actions, a as usize);
        if runs_on(&*bytes, x) {
            leave(t, WAITING, w as usize, bytes, words, numbers);
            count(sums);
            return Ok(Reply::Wait {
                thread: t,
                child: x as u16,
            });
        }
    }
    plain(table, w, bytes, words, numbers, sums)
}

// Thread b is one of the arrays' and ready.
fn is_ready(bytes: &[u8; 1040], b: u16) -> bool
    ensures { result ≡ (ltb b 1024 && eqb (get_or (bytes_in bytes.now).status b 0) ready) }
{
    b < NO_THREAD && status_at(bytes, b) == READY
}

// The blocks have their lengths, so that what is written of a worker is what is read of it.
fn lengths(bytes: &[u8], words: &[u16], numbers: &[u32])
    requires { (length bytes.now ≡ 1040) × ((length words.now ≡ 6163) × (length numbers.now ≡ 18)) }
    ensures { (length bytes.now ≡ 1040) × ((length words.now ≡ 6163) × (length numbers.now ≡ 18)) }
{}

// A turn that nothing hinders: of a worker that holds no thread, with the bottom at place c. Where it refuses, no number changes.
fn take(
    table: &[u8],
    w: u32,
    c: u32,
    bytes: &mut [u8; 1040],
    words: &mut [u16; 6163],
    numbers: &mut [u32; 18],
    sums: &mut [u64; 1027],
) -> Result<Reply, u32>
    requires { hindrance_of (sums_in sums.old).turns (numbers_in numbers.old).workers w (get_or (bytes_in bytes.old).status 0 0) ≡ 0 }
    ensures nonzero { (n : ℕ) → result ≡ Err n → n ≡ 0 → ⊥ }
    ensures turn_value { told (number_in result) (said_in result) (memory_of bytes.new words.new numbers.new sums.new)
        ≡ deque_taken_in table.now w c (memory_of bytes.old words.old numbers.old sums.old) }
{
    let turns = total_at(&*sums, TURNS);
    let holds = holds_at(&*bytes, w as usize);
    if !room_for(turns, head_at(&*words, BUSY), holds, w as usize) {
        return Err(32);
    }
    if !holds {
        if 16 <= c {
            return Err(32);
        }
        let b = bottom_at(&*words, c as usize);
        if !is_ready(&*bytes, b) {
            count(sums);
            return Ok(Reply::Idle);
        }
        let actions = bodies(table, threads(table));
        if !action_fits(actions, b, &*bytes, &*words, &*sums) {
            return Err(32);
        }
        lengths(&*bytes, &*words, &*numbers);
        steal(b, w as usize, bytes, words, numbers);
    }
    go_on(table, w, bytes, words, numbers, sums)
}

// 32 where no turn can be counted, 30, 31, 49: the number of what hinders a turn.
fn hindrance(turns: u64, p: u32, w: u32, c: u32, root: u8) -> Result<(), u32>
    ensures { result ≡ unless (deque_hindrance turns p w c root) }
{
    before_choice(turns, p, w, root)?;
    if c < p { Ok(()) } else { Err(49) }
}

// A turn of worker w with choice c, or 32, 30, 31, 49; 32 again where a number that the turn would write does not fit. Where it refuses, no number of the run changes.
pub fn deque_turn_in(
    table: &[u8],
    w: u32,
    c: u32,
    bytes: &mut [u8; 1040],
    words: &mut [u16; 6163],
    numbers: &mut [u32; 18],
    sums: &mut [u64; 1027],
) -> Result<Reply, u32>
    ensures nonzero { (n : ℕ) → result ≡ Err n → n ≡ 0 → ⊥ }
    ensures turn_value { told (number_in result) (said_in result) (memory_of bytes.new words.new numbers.new sums.new)
        ≡ deque_turn_in table.now w c (memory_of bytes.old words.old numbers.old sums.old) }
{
    hindrance(
        total_at(&*sums, TURNS),
        setting_at(&*numbers, WORKERS),
        w,
        c,
        status_at(&*bytes, 0),
    )?;
    take(table, w, c, bytes, words, numbers, sums)
}
