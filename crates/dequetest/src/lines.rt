// The clauses on the deques: a walk along the lines, and the links of the lines and of their bottoms.
ghost use Rattle.std.specs.Prelude.{◌≡◌, true, false, ◌||◌, ℕ, ◌≤◌, ◌<◌, length, get_or, take, replicate, eqb};
ghost use Rattle.table.specs.Sum.{pick};
ghost use Rattle.schedule.specs.Machine.{ready, held};
ghost use Rattle.order.specs.Words.{all_below, member, agree};
ghost use Rattle.deques.specs.Lines.{is_held};
ghost use Rattle.deques.specs.DequeWalk.{is_ready, once_in, in_lines, bottoms_along, deques_stand};
ghost use Rattle.dequetest.specs.Code.Standing.{Threads, bottom_at, walk_right};

use links::NO_THREAD;
use schedule::statuses::{HELD, READY};

// Thread t is a bottom: it is in the second list of links.
fn is_bottom(under: &[u16; 1024], first: u16, t: u16) -> bool
    requires { t < 1024 }
    ensures { result ≡ bottom_at under.now first t }
{
    under[t as usize] < NO_THREAD || first == t
}

// No thread stands twice in the lines; marks those that stand there.
fn mark_once(row: &[u16; 1024], len: usize, marks: &mut [bool; 1024]) -> bool
    requires threads { Threads row.now len }
    requires marks_value { marks.old ≡ replicate 1024 false }
    ensures value { result ≡ once_in (take len row.now) }
    ensures false_after { result ≡ true → (t : ℕ) → get_or marks.new t false ≡ member t (take len row.now) }
{
    for i in (0..len).rev() {
        let t = row[i] as usize;
        if marks[t] {
            return false;
        }
        marks[t] = true;
    }
    true
}

// A thread's status, where its line begins or not: "A worker owns one deque while it holds a thread", so a held thread is the first of its line, and any other in a line is ready.
fn fits_line(status: u8, begins: bool) -> bool
    ensures { result ≡ pick (eqb status held) begins (eqb status ready) }
{
    if status == HELD {
        return begins;
    }
    status == READY
}

// Along the lines: each thread's status fits its place, and the last is a bottom.
fn in_lines(
    row: &[u16; 1024],
    len: usize,
    status: &[u8; 1024],
    under: &[u16; 1024],
    first: u16,
) -> bool
    requires { Threads row.now len }
    ensures { result ≡ in_lines (bottom_at under.now first) status.now true (take len row.now) }
{
    let mut begins = true;
    for i in 0..len {
        let t = row[i];
        if !fits_line(status[t as usize], begins) {
            return false;
        }
        begins = is_bottom(under, first, t);
    }
    begins
}

// A thread of this status stands in a line: in a deque, or held.
fn stands(status: u8) -> bool
    ensures { result ≡ (eqb status ready || eqb status held) }
{
    status == READY || status == HELD
}

// The threads of the table that are marked are those that are ready or held.
fn marks_right(n: usize, status: &[u8; 1024], marks: &[bool; 1024]) -> bool
    requires { n ≤ 1024 }
    ensures { result ≡ all_below (λ t. agree (get_or marks.now t false) (is_ready status.now t || is_held status.now t)) n }
{
    for t in 0..n {
        if marks[t] != stands(status[t]) {
            return false;
        }
    }
    true
}

// "every thread of the table is exactly one of these: in one deque, held, waiting, unborn, ended", along the lines.
fn walk_right(
    n: usize,
    status: &[u8; 1024],
    under: &[u16; 1024],
    first: u16,
    row: &[u16; 1024],
    len: usize,
) -> bool
    requires n_bound { n ≤ 1024 }
    requires threads { Threads row.now len }
    ensures { result ≡ walk_right n status.now (bottom_at under.now first) (take len row.now) }
{
    let mut marks = [false; 1024];
    if !mark_once(row, len, &mut marks) {
        return false;
    }
    if !in_lines(row, len, status, under, first) {
        return false;
    }
    marks_right(n, status, &marks)
}

// Writes the bottoms of the lines into the front of a row, and gives how many they are.
fn gather_bottoms(
    row: &[u16; 1024],
    len: usize,
    under: &[u16; 1024],
    first: u16,
    bottoms: &mut [u16; 1024],
) -> usize
    requires threads { Threads row.now len }
    requires bottoms_len { length bottoms.old ≡ 1024 }
    ensures { take result bottoms.new ≡ bottoms_along (bottom_at under.now first) (take len row.now) }
{
    let mut count = 0;
    for i in 0..len {
        let t = row[i];
        if !is_bottom(under, first, t) {
            continue;
        }
        bottoms[count] = t;
        count += 1;
    }
    count
}

// The deques' own clauses; the lines are read into `row`, the bottoms into `bottoms`.
pub(crate) fn deques_stand(
    n: usize,
    status: &[u8; 1024],
    left: &[u16; 1024],
    right: &[u16; 1024],
    leftmost: u16,
    under: &[u16; 1024],
    over: &[u16; 1024],
    first: u16,
    bottoms: &mut [u16; 1024],
    row: &mut [u16; 1024],
) -> bool
    requires n_bound { n ≤ 1024 }
    requires bottoms_len { length bottoms.old ≡ 1024 }
    ensures { result ≡ deques_stand n status.now (record { left = left.now; right = right.now; head = leftmost })
        (record { left = under.now; right = over.now; head = first }) }
{
    *row = [0; 1024];
    let len = links::read_row(right, leftmost, row);
    if !walk_right(n, status, under, first, row, len) {
        return false;
    }
    if !links::describe(left, right, leftmost, row, len) {
        return false;
    }
    let count = gather_bottoms(row, len, under, first, bottoms);
    links::describe(under, over, first, bottoms, count)
}
