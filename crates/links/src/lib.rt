// The list of threads as links, on lent arrays: read off, laid, compared, the second list filled from it. Every call is total: whatever the arrays hold, it
// does what the definition says, and none needs the links to describe a list.
#![tactic(auto)]

ghost use Rattle.std.specs.Prelude.{◌≡◌, ◌++◌, ◌≤◌, length, take, drop, set, replicate};
ghost use Rattle.schedule.specs.Links.{head_of, laid, link_last, no_thread, walk};
ghost use Rattle.schedule.specs.Actives.{filled_from, no_links};
ghost use Rattle.links.specs.Code.Steps.{left_there};
ghost use Rattle.schedule.specs.Sound.{same_links};

use schedule::statuses::WAITING;

// "No neighbour is written as 1,024"
pub const NO_THREAD: u16 = 1024;

// Thread t has the neighbour x; nothing for a number that is no thread's.
fn put(links: &mut [u16], t: u16, x: u16)
    ensures { links.new ≡ set links.old t x }
{
    let place = t as usize;
    if place < links.len() {
        links[place] = x;
    }
}

// Writes the list into the front of a row, as far as the row goes, and gives its length.
fn write_threads(right: &[u16; 1024], leftmost: u16, row: &mut [u16]) -> usize
    ensures value { result ≡ length (walk (length row.old) right.now leftmost) }
    ensures row_after { row.new ≡ walk (length row.old) right.now leftmost ++ drop result row.old }
{
    let mut t = leftmost;
    for k in 0..row.len() {
        if NO_THREAD <= t {
            return k;
        }
        row[k] = t;
        t = right[t as usize];
    }
    row.len()
}

// Reads the list into the front of a row, leftmost first, and gives its length.
pub fn read_row(right: &[u16; 1024], leftmost: u16, row: &mut [u16; 1024]) -> usize
    ensures value { result ≡ length (walk 1024 right.now leftmost) }
    ensures row_after { row.new ≡ walk 1024 right.now leftmost ++ drop result row.old }
{
    write_threads(right, leftmost, row)
}

// No thread has a neighbour.
fn clear(links: &mut [u16; 1024])
    ensures { links.new ≡ replicate 1024 no_thread }
{
    *links = [NO_THREAD; 1024];
}

// The thread at place i of a row; NO_THREAD past its end, as a number: so it stands in the links that C lends.
fn thread_at(row: &[u16], i: usize) -> u16
    ensures { result ≡ head_of (drop i row.now) }
{
    if i < row.len() { row[i] } else { NO_THREAD }
}

// The thread left of place i of a row; NO_THREAD at the first.
fn thread_before(row: &[u16], i: usize) -> u16
    requires { i ≤ length row.now }
    ensures { result ≡ left_there row.now i }
{
    if i == 0 { NO_THREAD } else { row[i - 1] }
}

// Puts the threads of a row into links that have none, from the last to the first.
fn lay_threads(row: &[u16], left: &mut [u16; 1024], right: &mut [u16; 1024])
    requires { (left.old ≡ replicate 1024 no_thread) × (right.old ≡ replicate 1024 no_thread) }
    ensures left_after { left.new ≡ (laid row.now).left }
    ensures right_after { right.new ≡ (laid row.now).right }
{
    for i in (0..row.len()).rev() {
        let t = row[i];
        put(right, t, thread_at(row, i + 1));
        put(left, t, thread_before(row, i));
    }
}

// Puts c at the right end, where y is the last thread. The leftmost thread then.
fn link_last(left: &mut [u16; 1024], right: &mut [u16; 1024], leftmost: u16, c: u16, y: u16) -> u16
    ensures { record { left = left.new; right = right.new; head = result }
        ≡ link_last c y (record { left = left.old; right = right.old; head = leftmost }) }
{
    put(left, c, y);
    put(right, y, c);
    put(right, c, NO_THREAD);
    if y < NO_THREAD { leftmost } else { c }
}

// Fills the links of the second list, of the listed threads that do not wait, from the list's. Its leftmost thread.
pub fn fill_actives(
    status: &[u8; 1024],
    right: &[u16; 1024],
    leftmost: u16,
    under: &mut [u16; 1024],
    over: &mut [u16; 1024],
) -> u16
    ensures { record { left = under.new; right = over.new; head = result }
        ≡ filled_from 1024 status.now right.now leftmost no_thread no_links }
{
    clear(under);
    clear(over);
    let mut first = NO_THREAD;
    let mut last = NO_THREAD;
    let mut t = leftmost;
    for passed in 0usize..1024 {
        if NO_THREAD <= t {
            break;
        }
        if status[t as usize] != WAITING {
            first = link_last(under, over, first, t, last);
            last = t;
        }
        t = right[t as usize];
    }
    first
}

// Lays the first len threads of a row into links. The leftmost thread.
fn lay(row: &[u16; 1024], len: usize, left: &mut [u16; 1024], right: &mut [u16; 1024]) -> u16
    ensures left_after { left.new ≡ (laid (take len row.now)).left }
    ensures right_after { right.new ≡ (laid (take len row.now)).right }
    ensures value { result ≡ (laid (take len row.now)).head }
{
    let count = len.min(1024);
    let places = &row[..];
    let threads = &places[..count];
    clear(left);
    clear(right);
    lay_threads(threads, left, right);
    thread_at(threads, 0)
}

// Whether the links are those of the first len threads of a row.
pub fn describe(
    left: &[u16; 1024],
    right: &[u16; 1024],
    leftmost: u16,
    row: &[u16; 1024],
    len: usize,
) -> bool
    ensures { result ≡ same_links (record { left = left.now; right = right.now; head = leftmost }) (laid (take len row.now)) }
{
    let mut lefts = [0u16; 1024];
    let mut rights = [0u16; 1024];
    let first = lay(row, len, &mut lefts, &mut rights);
    *left == lefts && *right == rights && leftmost == first
}
