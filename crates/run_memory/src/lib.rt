// A turn of document 01's machine on the lent memory of a run, whatever it holds: no call traps, and what a turn leaves equals a definition (specs/Memory). The memory is four blocks, one for
// each width of numbers (specs/Blocks), and a turn writes into them alone. They go as four arguments, as C lends them.
#![tactic(auto)]

ghost use Rattle.std.specs.Prelude.{◌≡◌, ℕ, ◌&&◌, get_or, eqb, Err};
ghost use Rattle.table.specs.Sum.{pick};
ghost use Rattle.schedule.specs.Links.{seek as seek_of};
ghost use Rattle.array_machine.specs.Counted.{passed_along};
ghost use Rattle.run_memory.specs.Memory.{told, taken_in, turn_in, passed_over, unless, thread_in, number_in, reply_in, passed_in};
ghost use Rattle.run_memory.specs.Memory.{hindrance as hindrance_of};
ghost use Rattle.run_memory.specs.Blocks.{bytes_in, words_in, memory_of};
ghost use Rattle.run_memory.specs.Places.{holds_in};

use crate::act::go_on;
use crate::list::seek;
use crate::places::{
    BUSY, FIRST, LEFTMOST, NEXT, OVER, RIGHT, TURNS, WORKERS, head_at, holds_at, put_total, row_at,
    setting_at, status_at, thread_at, total_at,
};
use array_machine::room_for;
use links::NO_THREAD;
use schedule::statuses::ENDED;
use schedule::{Reply, Taken};
use table::read::{bodies, threads};

pub mod act;
pub mod copies;
pub mod lent;
pub mod list;
pub mod packing;
pub mod places;
pub mod preview;
pub mod replies;
pub mod rounds;
pub mod runs;

// 32 where no turn can be counted, 30, 31: the number of what hinders a turn.
pub fn hindrance(turns: u64, p: u32, w: u32, root: u8) -> Result<(), u32>
    ensures { result ≡ unless (hindrance_of turns p w root) }
{
    if turns == u64::MAX {
        return Err(32);
    }
    if p <= w {
        return Err(30);
    }
    if root == ENDED { Err(31) } else { Ok(()) }
}

// The thread with which worker w goes on: its own, or the leftmost ready one, which it takes; None where it is none of the arrays' or none is ready. The search goes along the second list, past held threads alone.
pub(crate) fn thread_for(bytes: &[u8; 1040], words: &[u16; 6163], w: usize) -> Option<u16>
    ensures { result ≡ thread_in (pick (holds_in w (bytes_in bytes.now)) (get_or (words_in words.now).threads w 0)
        (seek_of 1024 (bytes_in bytes.now).status ((words_in words.now).rows 5) (words_in words.now).first).thread) }
{
    if !holds_at(bytes, w) {
        let found = seek(bytes, words, OVER, FIRST)?;
        return Some(found.thread);
    }
    let t = thread_at(words, w);
    if t < NO_THREAD { Some(t) } else { None }
}

// How many threads stand left of the leftmost ready one, if that is asked for.
pub(crate) fn passed_along(
    bytes: &[u8; 1040],
    words: &[u16; 6163],
    holds: bool,
    counting: bool,
) -> u16
    ensures { result ≡ pick counting (passed_along holds (seek_of 1024 (bytes_in bytes.now).status ((words_in words.now).rows 3) (words_in words.now).leftmost)) 0 }
{
    if !counting {
        return 0;
    }
    if holds {
        return 0;
    }
    match seek(bytes, words, RIGHT, LEFTMOST) {
        Some(found) => found.passed,
        None => 0,
    }
}

// A turn of worker w that nothing hinders: 32 where a thread's number is none of the arrays' or something does not fit. Where it refuses, no number changes.
fn take(
    table: &[u8],
    w: usize,
    counting: bool,
    bytes: &mut [u8; 1040],
    words: &mut [u16; 6163],
    numbers: &mut [u32; 18],
    sums: &mut [u64; 1027],
) -> Result<Taken, u32>
    ensures sums_after { told (number_in result) (reply_in result) (memory_of bytes.new words.new numbers.new sums.new)
        ≡ taken_in table.now w (memory_of bytes.old words.old numbers.old sums.old) }
    ensures nonzero { (n : ℕ) → result ≡ Err n → n ≡ 0 → ⊥ }
    ensures passed_value { passed_in result ≡ pick (counting && eqb (number_in result) 0) (passed_over (memory_of bytes.old words.old numbers.old sums.old) w) 0 }
{
    let turns = total_at(&*sums, TURNS);
    let holds = holds_at(&*bytes, w);
    if !room_for(turns, head_at(&*words, BUSY), holds, w) {
        return Err(32);
    }
    let Some(t) = thread_for(&*bytes, &*words, w) else {
        if holds {
            return Err(32);
        }
        put_total(sums, TURNS, turns + 1);
        return Ok(Taken {
            reply: Reply::Idle,
            passed: 0,
        });
    };
    let passed = passed_along(&*bytes, &*words, holds, counting);
    let a = row_at(&*words, NEXT, t);
    let actions = bodies(table, threads(table));
    let Some(reply) = go_on(actions, a, w, t, bytes, words, numbers, sums) else {
        return Err(32);
    };
    put_total(sums, TURNS, turns + 1);
    Ok(Taken { reply, passed })
}

// A turn of worker w, or 32, 30, 31; 32 again where a number that the turn would write does not fit. Where it refuses, no number of the run changes.
pub fn turn_in(
    table: &[u8],
    w: u32,
    counting: bool,
    bytes: &mut [u8; 1040],
    words: &mut [u16; 6163],
    numbers: &mut [u32; 18],
    sums: &mut [u64; 1027],
) -> Result<Taken, u32>
    ensures sums_after { told (number_in result) (reply_in result) (memory_of bytes.new words.new numbers.new sums.new)
        ≡ turn_in table.now w (memory_of bytes.old words.old numbers.old sums.old) }
    ensures nonzero { (n : ℕ) → result ≡ Err n → n ≡ 0 → ⊥ }
    ensures passed_value { passed_in result ≡ pick (counting && eqb (number_in result) 0) (passed_over (memory_of bytes.old words.old numbers.old sums.old) w) 0 }
{
    hindrance(
        total_at(&*sums, TURNS),
        setting_at(&*numbers, WORKERS),
        w,
        status_at(&*bytes, 0),
    )?;
    take(table, w as usize, counting, bytes, words, numbers, sums)
}
