// A turn shown before it is taken (N4), from lent memory that is only read: "It equals taking the turn on a copy", and nothing is copied.
ghost use Rattle.std.specs.Prelude.{◌≡◌, true, max, get_or, Ok};
ghost use Rattle.table.specs.Sum.{pick};
ghost use Rattle.table.specs.Format.{Table, code_at, argument_at, kind};
ghost use Rattle.table.specs.declared.kinds.Kind.TheVariants.{Alloc as alloc, Free as free, Join as join};
ghost use Rattle.schedule.specs.declared.Reply.TheVariants.{Idle};
ghost use Rattle.run_memory.specs.Memory.{taken_in, passed_over};
ghost use Rattle.run_memory.specs.Blocks.{Bytes, Words, Numbers, bytes_in, numbers_in, sums_in, gathered, memory_of};
ghost use Rattle.run_memory.specs.Preview.{would, foreseen_as, foreseen_in};
ghost use Rattle.run_memory.specs.Code.Seen.{seeing, unseen as nothing_seen, seen_in};

use crate::act::quota_left;
use crate::places::{
    BUSY, HELD, HIGHEST, NEXT, TURNS, amount_at, head_at, holds_at, quota_at, row_at, setting_at,
    status_at, total_at,
};
use crate::{hindrance, passed_along, thread_for};
use array_machine::fits::{alloc_fits, fork_fits, free_fits, join_fits, next_fits};
use array_machine::{drawn, room_for};
use schedule::Reply;
use schedule::statuses::ENDED;
use table::kinds::Kind;
use table::read::{action_in, bodies, threads};

// What a turn would say, how many threads it would pass over, and after it memory held, its highest and the worker's quota left.
#[derive(Clone, Copy)]
pub struct Foreseen {
    pub reply: Reply,
    pub passed: u16,
    pub held: u64,
    pub highest: u64,
    pub quota: u32,
}

// What an action would say and leave.
#[derive(Clone, Copy)]
struct Seen {
    reply: Reply,
    held: u64,
    highest: u64,
    quota: u32,
}

// A worker that is released has no quota left.
const RELEASED: u32 = 0;

// Memory held stays as it is; None where something does not fit.
fn see(fits: bool, reply: Reply, sums: &[u64; 1027], quota: u32) -> Option<Seen>
    ensures { result ≡ pick fits (seeing reply (sums_in sums.now).held (sums_in sums.now).highest quota) nothing_seen }
{
    if !fits {
        return None;
    }
    Some(Seen {
        reply,
        held: total_at(sums, HELD),
        highest: total_at(sums, HIGHEST),
        quota,
    })
}

// Memory held is this after the turn.
fn see_holding(reply: Reply, held: u64, sums: &[u64; 1027], quota: u32) -> Option<Seen>
    ensures { result ≡ seeing reply held (max (sums_in sums.now).highest held) quota }
{
    Some(Seen {
        reply,
        held,
        highest: total_at(sums, HIGHEST).max(held),
        quota,
    })
}

fn see_alloc(
    x: u32,
    a: u16,
    t: u16,
    quota: u32,
    numbers: &[u32; 18],
    sums: &[u64; 1027],
) -> Option<Seen>
    ensures { (T : Table) (B : Bytes) (W : Words) → result ≡ seen_in alloc T t a x quota (gathered B W (numbers_in numbers.now) (sums_in sums.now)) }
{
    let share = drawn(setting_at(numbers, 1), x);
    if quota < share {
        let beyond = Reply::Quota {
            thread: t,
            wanted: x,
        };
        return see(true, beyond, sums, RELEASED);
    }
    let own = amount_at(sums, t);
    let all = total_at(sums, HELD);
    if !alloc_fits(a, all, own, x as u64) {
        return None;
    }
    let done = Reply::Done {
        thread: t,
        action: a,
    };
    see_holding(done, all + x as u64, sums, quota - share)
}

fn see_free(x: u32, a: u16, t: u16, quota: u32, sums: &[u64; 1027]) -> Option<Seen>
    ensures { (T : Table) (B : Bytes) (W : Words) (N : Numbers) → result ≡ seen_in free T t a x quota (gathered B W N (sums_in sums.now)) }
{
    let own = amount_at(sums, t);
    let all = total_at(sums, HELD);
    if !free_fits(a, all, own, x as u64) {
        return None;
    }
    let done = Reply::Done {
        thread: t,
        action: a,
    };
    see_holding(done, all - x as u64, sums, quota)
}

fn see_join(
    x: usize,
    a: u16,
    t: u16,
    quota: u32,
    bytes: &[u8; 1040],
    sums: &[u64; 1027],
) -> Option<Seen>
    ensures { (T : Table) (W : Words) (N : Numbers) → result ≡ seen_in join T t a x quota (gathered (bytes_in bytes.now) W N (sums_in sums.now)) }
{
    if 1024 <= x {
        return None;
    }
    let c = x as u16;
    if status_at(bytes, c) != ENDED {
        let waits = Reply::Wait {
            thread: t,
            child: c,
        };
        return see(true, waits, sums, RELEASED);
    }
    let own = amount_at(sums, t);
    let child = amount_at(sums, c);
    let fits = join_fits(a, own, child);
    let done = Reply::Done {
        thread: t,
        action: a,
    };
    see(fits, done, sums, quota)
}

// Thread t's next action a, with this quota left to its worker.
fn see_action(
    actions: &[u8],
    a: u16,
    t: u16,
    quota: u32,
    bytes: &[u8; 1040],
    numbers: &[u32; 18],
    sums: &[u64; 1027],
) -> Option<Seen>
    ensures { (T : Table) (W : Words) → T.code ≡ code_at actions.now → T.argument ≡ argument_at actions.now
        → result ≡ seen_in (kind T a) T t a (T.argument a) quota (gathered (bytes_in bytes.now) W (numbers_in numbers.now) (sums_in sums.now)) }
{
    let action = action_in(actions, a as usize);
    let x = action.argument;
    let done = Reply::Done {
        thread: t,
        action: a,
    };
    match action.kind() {
        Kind::End => see(true, done, sums, RELEASED),
        Kind::Work => see(next_fits(a), done, sums, quota),
        Kind::Alloc => see_alloc(x as u32, a, t, quota, numbers, sums),
        Kind::Free => see_free(x as u32, a, t, quota, sums),
        Kind::Fork => see(fork_fits(a, x), done, sums, RELEASED),
        Kind::Join => see_join(x, a, t, quota, bytes, sums),
        Kind::Unknown => see(true, Reply::Idle, sums, quota),
    }
}

// With no thread ready the turn is idle, and nothing moves but its count.
fn idle(w: usize, numbers: &[u32; 18], sums: &[u64; 1027]) -> Foreseen
    ensures { Ok result ≡ would Idle 0 (sums_in sums.now).held (sums_in sums.now).highest (get_or (numbers_in numbers.now).quotas w 0) }
{
    Foreseen {
        reply: Reply::Idle,
        passed: 0,
        held: total_at(sums, HELD),
        highest: total_at(sums, HIGHEST),
        quota: quota_at(numbers, w),
    }
}

// A turn of worker w that nothing hinders: 32 where a thread's number is none of the arrays' or something would not fit.
fn foresee(
    table: &[u8],
    w: usize,
    bytes: &[u8; 1040],
    words: &[u16; 6163],
    numbers: &[u32; 18],
    sums: &[u64; 1027],
) -> Result<Foreseen, u32>
    ensures { result ≡ foreseen_as (taken_in table.now w (memory_of bytes.now words.now numbers.now sums.now))
        (passed_over (memory_of bytes.now words.now numbers.now sums.now) w) w }
{
    // a part's length is known to the proof, an array's is not: p, K and the quotas
    let places = &numbers[..];
    if places.len() - 2 <= w {
        return Err(32);
    }
    let holds = holds_at(bytes, w);
    let turns = total_at(sums, TURNS);
    if !room_for(turns, head_at(words, BUSY), holds, w) {
        return Err(32);
    }
    let Some(t) = thread_for(bytes, words, w) else {
        if holds {
            return Err(32);
        }
        return Ok(idle(w, numbers, sums));
    };
    let quota = quota_left(bytes, numbers, w);
    let a = row_at(words, NEXT, t);
    let actions = bodies(table, threads(table));
    let Some(there) = see_action(actions, a, t, quota, bytes, numbers, sums) else {
        return Err(32);
    };
    let passed = passed_along(bytes, words, holds, true);
    Ok(Foreseen {
        reply: there.reply,
        passed,
        held: there.held,
        highest: there.highest,
        quota: there.quota,
    })
}

// The turn of worker w, or the number of what refuses it: "the record itself is unaltered".
pub fn preview_in(
    table: &[u8],
    w: u32,
    bytes: &[u8; 1040],
    words: &[u16; 6163],
    numbers: &[u32; 18],
    sums: &[u64; 1027],
) -> Result<Foreseen, u32>
    ensures { result ≡ foreseen_in table.now w (memory_of bytes.now words.now numbers.now sums.now) }
{
    hindrance(
        total_at(sums, TURNS),
        setting_at(numbers, 0),
        w,
        status_at(bytes, 0),
    )?;
    foresee(table, w as usize, bytes, words, numbers, sums)
}
