// What a worker's turn does with thread t, which it has or takes, by the kind of the thread's next action: the reply, or None where something does not fit, and then nothing was moved. Words in quotation marks beside fork, wait and end are those of the thesis, figure
// 3.2 and the text to it. Each function tests first whether what it would write fits; then it writes, and where the worker keeps a thread that it takes, the thread is held from there on.
ghost use Rattle.std.specs.Prelude.{◌≡◌, true, false, ℕ, ◌+◌, ◌^◌, ◌<◌, get_or};
ghost use Rattle.table.specs.Sum.{pick};
ghost use Rattle.table.specs.Format.{Table, code_at, argument_at, kind};
ghost use Rattle.table.specs.declared.kinds.Kind.TheVariants.{Work as work, Alloc as alloc, Free as free, Fork as fork, Join as join, End as end, Unknown as unknown};
ghost use Rattle.schedule.specs.Machine.{ended, nobody};
ghost use Rattle.array_machine.specs.Turn.{waits_in};
ghost use Rattle.array_machine.specs.Counted.{busy_after};
ghost use Rattle.run_memory.specs.Blocks.{bytes_in, words_in, numbers_in, sums_in, memory_of};
ghost use Rattle.run_memory.specs.Places.{holds_in, statused};
ghost use Rattle.run_memory.specs.Code.Writes.{having, seated_bytes, Room, settled, settled_words, settled_numbers, held_sums};
ghost use Rattle.run_memory.specs.Code.Acts.{gone, acted, Seated};

use crate::list::{link_left, unlink};
use crate::places::{
    BUSY, FIRST, HELD as HELD_TOTAL, HIGHEST, LEFT, LEFTMOST, NEXT, PARENTS, UNDER, amount_at,
    head_at, holds_at, put_amount, put_head, put_holds, put_quota, put_row, put_status, put_thread,
    put_total, quota_at, row_at, setting_at, status_at, total_at, worker_at,
};
use array_machine::drawn;
use array_machine::fits::{alloc_fits, fork_fits, free_fits, join_fits, next_fits};
use array_machine::release::release_lent;
use schedule::statuses::{ENDED, HELD, READY, WAITING};
use schedule::{Reply, Worker};
use table::kinds::JOIN;
use table::read::{argument_in, code_in};

// The set of workers that hold a thread, after worker w's truth value went from one to the other.
fn busy_after(busy: u16, held: bool, holds: bool, w: usize) -> u16
    requires { (w < 16) × (held ≡ false → busy + 2 ^ w < 65536) }
    ensures { result ≡ busy_after busy held holds w }
{
    if held {
        if holds {
            return busy;
        }
        return without(busy, w);
    }
    let bit: u16 = 1 << w;
    if holds { busy + bit } else { busy }
}

// The set of workers that hold a thread, without worker w.
pub fn without(busy: u16, w: usize) -> u16
    ensures { result ≡ busy_after busy true false w }
{
    if 16 <= w {
        return 0;
    }
    let bit: u16 = 1 << w;
    if busy < bit { 0 } else { busy - bit }
}

// A truth value as a number.
pub(crate) fn as_number(x: bool) -> u8
    ensures { result ≡ pick x 1 0 }
{
    if x { 1 } else { 0 }
}

// Worker w's record is this, and the set has its bit.
fn settle(
    bytes: &mut [u8; 1040],
    words: &mut [u16; 6163],
    numbers: &mut [u32; 18],
    w: usize,
    after: Worker,
)
    requires { Room w (bytes_in bytes.old) (words_in words.old) }
    ensures bytes_after { bytes_in bytes.new ≡ settled w after (bytes_in bytes.old) }
    ensures words_after { words_in words.new ≡ settled_words w (holds_in w (bytes_in bytes.old)) after (words_in words.old) }
    ensures numbers_after { numbers_in numbers.new ≡ settled_numbers w after (numbers_in numbers.old) }
{
    let before = holds_at(&*bytes, w);
    let busy = busy_after(head_at(&*words, BUSY), before, after.holds, w);
    put_head(words, BUSY, busy);
    put_holds(bytes, w, as_number(after.holds));
    put_thread(words, w, after.thread);
    put_quota(numbers, w, after.quota);
}

// "w is released": its record, read into a local, is lent and altered there, and the local goes back into the cells.
fn let_go(bytes: &mut [u8; 1040], words: &mut [u16; 6163], numbers: &mut [u32; 18], w: usize)
    requires { Room w (bytes_in bytes.old) (words_in words.old) }
    ensures bytes_after { bytes_in bytes.new ≡ settled w nobody (bytes_in bytes.old) }
    ensures words_after { words_in words.new ≡ settled_words w (holds_in w (bytes_in bytes.old)) nobody (words_in words.old) }
    ensures numbers_after { numbers_in numbers.new ≡ settled_numbers w nobody (numbers_in numbers.old) }
{
    let mut worker = worker_at(&*bytes, &*words, &*numbers, w);
    release_lent(&mut worker);
    settle(bytes, words, numbers, w, worker);
}

// "insert T into R in its original position": the thread stands in its place with this status, and its worker is released.
fn put_back(
    bytes: &mut [u8; 1040],
    words: &mut [u16; 6163],
    numbers: &mut [u32; 18],
    w: usize,
    t: u16,
    status: u8,
)
    requires { Room w (bytes_in bytes.old) (words_in words.old) }
    ensures bytes_after { bytes_in bytes.new ≡ settled w nobody (statused t status (bytes_in bytes.old)) }
    ensures words_after { words_in words.new ≡ settled_words w (holds_in w (bytes_in bytes.old)) nobody (words_in words.old) }
    ensures numbers_after { numbers_in numbers.new ≡ settled_numbers w nobody (numbers_in numbers.old) }
{
    put_status(bytes, t, status);
    let_go(bytes, words, numbers, w);
}

// The quota left to worker w: its own, or the whole quota where it takes a thread.
pub(crate) fn quota_left(bytes: &[u8; 1040], numbers: &[u32; 18], w: usize) -> u32
    ensures { result ≡ pick (holds_in w (bytes_in bytes.now)) (get_or (numbers_in numbers.now).quotas w 0) (numbers_in numbers.now).quota }
{
    if holds_at(bytes, w) {
        quota_at(numbers, w)
    } else {
        setting_at(numbers, 1)
    }
}

// Worker w has thread t, with this quota left.
fn keep(
    bytes: &mut [u8; 1040],
    words: &mut [u16; 6163],
    numbers: &mut [u32; 18],
    w: usize,
    t: u16,
    quota: u32,
)
    requires { Room w (bytes_in bytes.old) (words_in words.old) }
    ensures bytes_after { bytes_in bytes.new ≡ settled w (having t quota) (seated_bytes w t (bytes_in bytes.old)) }
    ensures words_after { words_in words.new ≡ settled_words w (holds_in w (bytes_in bytes.old)) (having t quota) (words_in words.old) }
    ensures numbers_after { numbers_in numbers.new ≡ settled_numbers w (having t quota) (numbers_in numbers.old) }
{
    if !holds_at(&*bytes, w) {
        put_status(bytes, t, HELD);
    }
    let after = Worker {
        holds: true,
        thread: t,
        quota,
    };
    settle(bytes, words, numbers, w, after);
}

// Memory held is this.
fn hold(sums: &mut [u64; 1027], amount: u64)
    ensures { sums_in sums.new ≡ held_sums amount (sums_in sums.old) }
{
    let highest = total_at(&*sums, HIGHEST).max(amount);
    put_total(sums, HELD_TOTAL, amount);
    put_total(sums, HIGHEST, highest);
}

fn act_work(
    a: u16,
    w: usize,
    t: u16,
    bytes: &mut [u8; 1040],
    words: &mut [u16; 6163],
    numbers: &mut [u32; 18],
    sums: &[u64; 1027],
) -> Option<Reply>
    requires { Seated (memory_of bytes.old words.old numbers.old sums.now) w t a }
    ensures { (T : Table) (x : ℕ) → gone result (memory_of bytes.new words.new numbers.new sums.now)
        ≡ acted work T w t a x (memory_of bytes.old words.old numbers.old sums.now) }
{
    if !next_fits(a) {
        return None;
    }
    put_row(words, NEXT, t, a + 1);
    let quota = quota_left(&*bytes, &*numbers, w);
    keep(bytes, words, numbers, w, t, quota);
    Some(Reply::Done {
        thread: t,
        action: a,
    })
}

fn act_alloc(
    x: u32,
    a: u16,
    w: usize,
    t: u16,
    bytes: &mut [u8; 1040],
    words: &mut [u16; 6163],
    numbers: &mut [u32; 18],
    sums: &mut [u64; 1027],
) -> Option<Reply>
    requires { Seated (memory_of bytes.old words.old numbers.old sums.old) w t a }
    ensures { (T : Table) → gone result (memory_of bytes.new words.new numbers.new sums.new)
        ≡ acted alloc T w t a x (memory_of bytes.old words.old numbers.old sums.old) }
{
    let quota = quota_left(&*bytes, &*numbers, w);
    let share = drawn(setting_at(&*numbers, 1), x);
    if quota < share {
        // preempted: the thread is returned "in the ready state"
        put_back(bytes, words, numbers, w, t, READY);
        return Some(Reply::Quota {
            thread: t,
            wanted: x,
        });
    }
    let own = amount_at(&*sums, t);
    let all = total_at(&*sums, HELD_TOTAL);
    if !alloc_fits(a, all, own, x as u64) {
        return None;
    }
    put_row(words, NEXT, t, a + 1);
    put_amount(sums, t, own + x as u64);
    hold(sums, all + x as u64);
    keep(bytes, words, numbers, w, t, quota - share);
    Some(Reply::Done {
        thread: t,
        action: a,
    })
}

fn act_free(
    x: u32,
    a: u16,
    w: usize,
    t: u16,
    bytes: &mut [u8; 1040],
    words: &mut [u16; 6163],
    numbers: &mut [u32; 18],
    sums: &mut [u64; 1027],
) -> Option<Reply>
    requires { Seated (memory_of bytes.old words.old numbers.old sums.old) w t a }
    ensures { (T : Table) → gone result (memory_of bytes.new words.new numbers.new sums.new)
        ≡ acted free T w t a x (memory_of bytes.old words.old numbers.old sums.old) }
{
    let own = amount_at(&*sums, t);
    let all = total_at(&*sums, HELD_TOTAL);
    if !free_fits(a, all, own, x as u64) {
        return None;
    }
    put_row(words, NEXT, t, a + 1);
    put_amount(sums, t, own - x as u64);
    hold(sums, all - x as u64);
    // "the quota doesn't rise"
    let left = quota_left(&*bytes, &*numbers, w);
    keep(bytes, words, numbers, w, t, left);
    Some(Reply::Done {
        thread: t,
        action: a,
    })
}

fn act_fork(
    x: usize,
    a: u16,
    w: usize,
    t: u16,
    bytes: &mut [u8; 1040],
    words: &mut [u16; 6163],
    numbers: &mut [u32; 18],
    sums: &[u64; 1027],
) -> Option<Reply>
    requires { Seated (memory_of bytes.old words.old numbers.old sums.now) w t a }
    ensures { (T : Table) → gone result (memory_of bytes.new words.new numbers.new sums.now)
        ≡ acted fork T w t a x (memory_of bytes.old words.old numbers.old sums.now) }
{
    if !fork_fits(a, x) {
        return None;
    }
    let c = x as u16;
    // preempted at a fork: "insert T into R in its original position", in the ready state
    put_row(words, NEXT, t, a + 1);
    put_back(bytes, words, numbers, w, t, READY);
    // "create child threads in place": "to the immediate left of their parent thread"
    put_status(bytes, c, READY);
    link_left(words, LEFT, LEFTMOST, c, t);
    link_left(words, UNDER, FIRST, c, t);
    Some(Reply::Done {
        thread: t,
        action: a,
    })
}

// The child c has ended.
fn act_joined(
    c: u16,
    a: u16,
    w: usize,
    t: u16,
    bytes: &mut [u8; 1040],
    words: &mut [u16; 6163],
    numbers: &mut [u32; 18],
    sums: &mut [u64; 1027],
) -> Option<Reply>
    requires seated { Seated (memory_of bytes.old words.old numbers.old sums.old) w t a }
    requires c_bound { (c < 1024) × (get_or (bytes_in bytes.old).status c 0 ≡ ended) }
    ensures { (T : Table) → gone result (memory_of bytes.new words.new numbers.new sums.new)
        ≡ acted join T w t a c (memory_of bytes.old words.old numbers.old sums.old) }
{
    let own = amount_at(&*sums, t);
    let child = amount_at(&*sums, c);
    if !join_fits(a, own, child) {
        return None;
    }
    put_row(words, NEXT, t, a + 1);
    put_amount(sums, t, own + child);
    put_amount(sums, c, 0);
    let quota = quota_left(&*bytes, &*numbers, w);
    keep(bytes, words, numbers, w, t, quota);
    Some(Reply::Done {
        thread: t,
        action: a,
    })
}

fn act_join(
    x: usize,
    a: u16,
    w: usize,
    t: u16,
    bytes: &mut [u8; 1040],
    words: &mut [u16; 6163],
    numbers: &mut [u32; 18],
    sums: &mut [u64; 1027],
) -> Option<Reply>
    requires { Seated (memory_of bytes.old words.old numbers.old sums.old) w t a }
    ensures { (T : Table) → gone result (memory_of bytes.new words.new numbers.new sums.new)
        ≡ acted join T w t a x (memory_of bytes.old words.old numbers.old sums.old) }
{
    if 1024 <= x {
        return None;
    }
    let c = x as u16;
    if status_at(&*bytes, c) == ENDED {
        return act_joined(c, a, w, t, bytes, words, numbers, sums);
    }
    // suspends: "insert T into R in its original position", and no more; the second list has no thread that waits
    put_back(bytes, words, numbers, w, t, WAITING);
    unlink(words, UNDER, FIRST, t);
    Some(Reply::Wait {
        thread: t,
        child: c,
    })
}

// Whether the parent u waits for child t.
pub fn waits(actions: &[u8], bytes: &[u8; 1040], words: &[u16; 6163], u: u16, t: u16) -> bool
    ensures { (T : Table) → T.code ≡ code_at actions.now → T.argument ≡ argument_at actions.now
        → result ≡ waits_in T ((words_in words.now).rows 1) (bytes_in bytes.now).status u t }
{
    if status_at(bytes, u) != WAITING {
        return false;
    }
    let a = row_at(words, NEXT, u) as usize;
    if code_in(actions, a) != JOIN {
        return false;
    }
    argument_in(actions, a) == t as usize
}

fn act_end(
    actions: &[u8],
    a: u16,
    w: usize,
    t: u16,
    bytes: &mut [u8; 1040],
    words: &mut [u16; 6163],
    numbers: &mut [u32; 18],
    sums: &[u64; 1027],
) -> Option<Reply>
    requires { Seated (memory_of bytes.old words.old numbers.old sums.now) w t a }
    ensures { (T : Table) (x : ℕ) → T.code ≡ code_at actions.now → T.argument ≡ argument_at actions.now
        → gone result (memory_of bytes.new words.new numbers.new sums.now)
        ≡ acted end T w t a x (memory_of bytes.old words.old numbers.old sums.now) }
{
    // "insert T into R in its original position"; "if (T has terminated)"
    put_back(bytes, words, numbers, w, t, ENDED);
    let u = row_at(&*words, PARENTS, t);
    // "the parent T' of T is suspended": "reactivate T'"; in the second list it comes in the place of t
    if waits(actions, &*bytes, &*words, u, t) {
        put_status(bytes, u, READY);
        link_left(words, UNDER, FIRST, u, t);
    }
    // "delete T from R"
    unlink(words, LEFT, LEFTMOST, t);
    unlink(words, UNDER, FIRST, t);
    Some(Reply::Done {
        thread: t,
        action: a,
    })
}

// A number that is no action's kind, which an accepted table has not: an idle turn, with which a worker keeps what it has.
fn act_unknown(
    a: u16,
    w: usize,
    t: u16,
    bytes: &mut [u8; 1040],
    words: &mut [u16; 6163],
    numbers: &mut [u32; 18],
    sums: &[u64; 1027],
) -> Option<Reply>
    requires { Seated (memory_of bytes.old words.old numbers.old sums.now) w t a }
    ensures { (T : Table) (x : ℕ) → gone result (memory_of bytes.new words.new numbers.new sums.now)
        ≡ acted unknown T w t a x (memory_of bytes.old words.old numbers.old sums.now) }
{
    let quota = quota_left(&*bytes, &*numbers, w);
    keep(bytes, words, numbers, w, t, quota);
    Some(Reply::Idle)
}

// Worker w goes on with thread t.
pub(crate) fn go_on(
    actions: &[u8],
    a: u16,
    w: usize,
    t: u16,
    bytes: &mut [u8; 1040],
    words: &mut [u16; 6163],
    numbers: &mut [u32; 18],
    sums: &mut [u64; 1027],
) -> Option<Reply>
    requires { Seated (memory_of bytes.old words.old numbers.old sums.old) w t a }
    ensures { (T : Table) → T.code ≡ code_at actions.now → T.argument ≡ argument_at actions.now
        → gone result (memory_of bytes.new words.new numbers.new sums.new)
        ≡ acted (kind T a) T w t a (T.argument a) (memory_of bytes.old words.old numbers.old sums.old) }
{
    let at = a as usize;
    let x = argument_in(actions, at);
    match code_in(actions, at) {
        0 => act_end(actions, a, w, t, bytes, words, numbers, &*sums),
        1 => act_work(a, w, t, bytes, words, numbers, &*sums),
        2 => act_alloc(x as u32, a, w, t, bytes, words, numbers, sums),
        3 => act_free(x as u32, a, w, t, bytes, words, numbers, sums),
        4 => act_fork(x, a, w, t, bytes, words, numbers, &*sums),
        5 => act_join(x, a, w, t, bytes, words, numbers, sums),
        _ => act_unknown(a, w, t, bytes, words, numbers, &*sums),
    }
}
