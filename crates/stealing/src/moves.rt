// What a worker's turn writes where AsyncDF's action does not serve: a fork, a thread that leaves its line at its end or to wait, and a steal. But for a steal the worker holds thread t before.
ghost use Rattle.std.specs.Prelude.{◌≡◌, true, false, not, ◌||◌, ◌+◌, ◌^◌, ◌<◌, get_or, ltb};
ghost use Rattle.table.specs.Sum.{pick};
ghost use Rattle.table.specs.Format.{Table, code_at, argument_at};
ghost use Rattle.schedule.specs.Machine.{held};
ghost use Rattle.array_machine.specs.Arrays.{links};
ghost use Rattle.array_machine.specs.Counted.{busy_after};
ghost use Rattle.run_memory.specs.Blocks.{Sums, bytes_in, words_in, numbers_in, gathered};
ghost use Rattle.run_memory.specs.Places.{statused, holding, holds_in, threaded, headed, quotaed};
ghost use Rattle.run_memory.specs.Code.Writes.{linked_left, unlinked};
ghost use Rattle.deques.specs.Lines.{linked_in};
ghost use Rattle.stealing.specs.Code.{Holder, left_behind, woken_up, forked_off, ended_in, stolen_in};

use crate::bottoms::{is_bottom, rob};
use links::NO_THREAD;
use run_memory::act::{waits, without};
use run_memory::list::{link_left, unlink};
use run_memory::places::{
    BUSY, FIRST, LEFT, LEFTMOST, NEXT, PARENTS, QUOTA, RIGHT, UNDER, head_at, put_head, put_holds,
    put_quota, put_row, put_status, put_thread, row_at, setting_at,
};
use schedule::statuses::{ENDED, HELD, READY};

// The worker goes on with thread u.
fn hold(bytes: &mut [u8; 1040], words: &mut [u16; 6163], w: usize, u: u16)
    ensures bytes_after { bytes_in bytes.new ≡ holding w 1 (statused u held (bytes_in bytes.old)) }
    ensures words_after { words_in words.new ≡ threaded w u (words_in words.old) }
{
    put_status(bytes, u, HELD);
    put_holds(bytes, w, 1);
    put_thread(words, w, u);
}

// "w is released"
fn let_go(bytes: &mut [u8; 1040], words: &mut [u16; 6163], numbers: &mut [u32; 18], w: usize)
    ensures bytes_after { bytes_in bytes.new ≡ holding w 0 (bytes_in bytes.old) }
    ensures words_after { words_in words.new ≡ threaded w 0 (headed 2 (busy_after (words_in words.old).busy true false w) (words_in words.old)) }
    ensures numbers_after { numbers_in numbers.new ≡ quotaed w 0 (numbers_in numbers.old) }
{
    let busy = without(head_at(&*words, BUSY), w);
    put_head(words, BUSY, busy);
    put_holds(bytes, w, 0);
    put_thread(words, w, 0);
    put_quota(numbers, w, 0);
}

// Thread t has no thread below it in its line, `next` being its right neighbour: it is a bottom. (In memory that is no run's, a thread that is none may have no neighbour.)
fn is_last(words: &[u16; 6163], t: u16, next: u16) -> bool
    ensures { result ≡ (linked_in (links ((words_in words.now).rows 4) ((words_in words.now).rows 5) (words_in words.now).first) t || not (ltb next 1024)) }
{
    is_bottom(words, t) || NO_THREAD <= next
}

// "with its deque's top thread; with none there, its deque leaves the list": thread t leaves the lines with this status.
pub(crate) fn leave(
    t: u16,
    status: u8,
    w: usize,
    bytes: &mut [u8; 1040],
    words: &mut [u16; 6163],
    numbers: &mut [u32; 18],
)
    requires { Holder w (bytes_in bytes.old) }
    ensures { (S : Sums) → gathered (bytes_in bytes.new) (words_in words.new) (numbers_in numbers.new) S
        ≡ left_behind t status w (gathered (bytes_in bytes.old) (words_in words.old) (numbers_in numbers.old) S) }
{
    let next = row_at(&*words, RIGHT, t);
    let last = is_last(&*words, t, next);
    put_status(bytes, t, status);
    unlink(words, LEFT, LEFTMOST, t);
    if last {
        unlink(words, UNDER, FIRST, t);
        let_go(bytes, words, numbers, w);
        return;
    }
    hold(bytes, words, w, next);
}

// Puts u into the place of t in the list of rows k and k + 1 and head h.
fn replace(words: &mut [u16; 6163], k: usize, h: usize, u: u16, t: u16)
    ensures { words_in words.new ≡ pick (ltb k 5) (unlinked k h t (linked_left k h u t (words_in words.old))) (words_in words.old) }
{
    link_left(words, k, h, u, t);
    unlink(words, k, h, t);
}

// "At an end it goes on with the parent it woke": u comes in the place of t.
pub(crate) fn wake(
    t: u16,
    u: u16,
    w: usize,
    bytes: &mut [u8; 1040],
    words: &mut [u16; 6163],
    numbers: &[u32; 18],
)
    requires { Holder w (bytes_in bytes.old) }
    ensures { (S : Sums) → gathered (bytes_in bytes.new) (words_in words.new) (numbers_in numbers.now) S
        ≡ woken_up t u w (gathered (bytes_in bytes.old) (words_in words.old) (numbers_in numbers.now) S) }
{
    let last = is_bottom(&*words, t);
    put_status(bytes, t, ENDED);
    hold(bytes, words, w, u);
    replace(words, LEFT, LEFTMOST, u, t);
    if last {
        replace(words, UNDER, FIRST, u, t);
    }
}

// "At a fork the parent goes on top and the worker does the child."
pub(crate) fn fork(
    c: u16,
    a: u16,
    w: usize,
    t: u16,
    bytes: &mut [u8; 1040],
    words: &mut [u16; 6163],
    numbers: &[u32; 18],
)
    requires holder { Holder w (bytes_in bytes.old) }
    requires a_bound { (a + 1 < 65536) × ((c < 1024) × (a ≡ get_or ((words_in words.old).rows 1) t 0)) }
    ensures { (S : Sums) → gathered (bytes_in bytes.new) (words_in words.new) (numbers_in numbers.now) S
        ≡ forked_off t a c w (gathered (bytes_in bytes.old) (words_in words.old) (numbers_in numbers.now) S) }
{
    put_row(words, NEXT, t, a + 1);
    put_status(bytes, t, READY);
    link_left(words, LEFT, LEFTMOST, c, t);
    hold(bytes, words, w, c);
}

// An end: the thread leaves the lines, or the parent that it woke comes in its place.
pub(crate) fn end(
    actions: &[u8],
    t: u16,
    w: usize,
    bytes: &mut [u8; 1040],
    words: &mut [u16; 6163],
    numbers: &mut [u32; 18],
)
    requires { Holder w (bytes_in bytes.old) }
    ensures { (T : Table) (S : Sums) → T.code ≡ code_at actions.now → T.argument ≡ argument_at actions.now
        → gathered (bytes_in bytes.new) (words_in words.new) (numbers_in numbers.new) S
        ≡ ended_in T t w (gathered (bytes_in bytes.old) (words_in words.old) (numbers_in numbers.old) S) }
{
    put_status(bytes, t, ENDED);
    let u = row_at(&*words, PARENTS, t);
    if waits(actions, &*bytes, &*words, u, t) {
        wake(t, u, w, bytes, words, &*numbers);
        return;
    }
    leave(t, ENDED, w, bytes, words, numbers);
}

// The set with worker w, which was not in it.
fn including(busy: u16, w: usize) -> u16
    requires { (w < 16) × (busy + 2 ^ w < 65536) }
    ensures { result ≡ busy_after busy false true w }
{
    let bit: u16 = 1 << w;
    busy + bit
}

// "stolen from its bottom": worker w, which holds nothing, holds bottom b, with the whole quota.
pub(crate) fn steal(
    b: u16,
    w: usize,
    bytes: &mut [u8; 1040],
    words: &mut [u16; 6163],
    numbers: &mut [u32; 18],
)
    requires { (w < 16) × ((holds_in w (bytes_in bytes.old) ≡ false) × ((words_in words.old).busy + 2 ^ w < 65536)) }
    ensures { (S : Sums) → gathered (bytes_in bytes.new) (words_in words.new) (numbers_in numbers.new) S
        ≡ stolen_in b w (gathered (bytes_in bytes.old) (words_in words.old) (numbers_in numbers.old) S) }
{
    let busy = including(head_at(&*words, BUSY), w);
    put_head(words, BUSY, busy);
    rob(words, b);
    hold(bytes, words, w, b);
    let quota = setting_at(&*numbers, QUOTA);
    put_quota(numbers, w, quota);
}
