// The list in serial order: the 1DF-numbers of the next actions, from the lengths of the threads with their children.
ghost use Rattle.std.specs.Prelude.{◌≡◌, true, false, ℕ, ◌+◌, ◌≤◌, ◌<◌, length, get_or, take, ltb};
ghost use Rattle.table.specs.Format.{table_of};
ghost use Rattle.table.specs.Checks.{owner, end_of};
ghost use Rattle.table.specs.Serial.{serial};
ghost use Rattle.table.specs.Sum.{Read};
ghost use Rattle.schedule.specs.Sound.{in_serial_order};
ghost use Rattle.order.specs.Words.{all_in, rises};
ghost use Rattle.soundness.specs.Code.Checks.{Accepted, Placed, Lengths, Numbers};
ghost use Rattle.soundness.specs.Code.Order.{Inside, Numbering, NumbersTo};

use crate::bodies::end_of;
use table::kinds::Kind;
use table::read;

// How many actions come with action a: itself, and those of the child that it forks.
fn span(table: &[u8], n: usize, a: usize, lengths: &[u16; 1024]) -> usize
    requires accepted { Accepted table.now n }
    requires inside { Inside (table_of table.now) (owner (table_of table.now) a) a }
    requires lengths { Lengths (table_of table.now) lengths.now (owner (table_of table.now) a + 1) }
    ensures { length (serial (table_of table.now) a) ≡ result + length (serial (table_of table.now) (a + 1)) }
{
    match read::kind(table, n, a) {
        Kind::Fork => 1 + lengths[read::argument(table, n, a)] as usize,
        _ => 1,
    }
}

// How many actions a thread has with its children, from the lengths of the threads above it.
fn thread_length(table: &[u8], n: usize, t: usize, lengths: &[u16; 1024]) -> usize
    requires accepted { Accepted table.now n }
    requires t_lt_n { t < n }
    requires lengths { Lengths (table_of table.now) lengths.now (t + 1) }
    ensures { Read (length (serial (table_of table.now) ((table_of table.now).first t))) 65536 result }
{
    let last = end_of(table, t);
    let mut total = 1;
    for a in read::first(table, t)..last {
        total += span(table, n, a, lengths);
    }
    total
}

// The children before their parents.
fn fill_lengths(table: &[u8], n: usize, lengths: &mut [u16; 1024])
    requires accepted { Accepted table.now n }
    requires lengths_len { length lengths.old ≡ 1024 }
    ensures { Lengths (table_of table.now) lengths.new 0 }
{
    for t in (0..n).rev() {
        let total = thread_length(table, n, t, lengths);
        lengths[t] = total as u16;
    }
}

// The number of the action after action a in its thread; a child that a forks has the number between, in the place of its length.
fn pass(table: &[u8], n: usize, a: usize, number: usize, numbers: &mut [u16; 1024]) -> usize
    requires accepted { Accepted table.now n }
    requires a_bound { a < end_of (table_of table.now) (owner (table_of table.now) a) }
    requires numbers_to { NumbersTo (table_of table.now) (owner (table_of table.now) a) a number numbers.old numbers.old }
    ensures { NumbersTo (table_of table.now) (owner (table_of table.now) a) (a + 1) result numbers.old numbers.new }
{
    let after = number + 1;
    let Kind::Fork = read::kind(table, n, a) else {
        return after;
    };
    let c = read::argument(table, n, a);
    let length = numbers[c] as usize;
    numbers[c] = after as u16;
    after + length
}

// From an action with the number `start` to a later one of its thread.
fn advance(
    table: &[u8],
    n: usize,
    from: usize,
    to: usize,
    start: usize,
    numbers: &mut [u16; 1024],
) -> usize
    requires accepted { Accepted table.now n }
    requires from_le_to { (from ≤ to) × (to ≤ end_of (table_of table.now) (owner (table_of table.now) from)) }
    requires numbers_to { NumbersTo (table_of table.now) (owner (table_of table.now) from) from start numbers.old numbers.old }
    ensures { NumbersTo (table_of table.now) (owner (table_of table.now) from) to result numbers.old numbers.new }
{
    let mut number = start;
    for a in from..to {
        number = pass(table, n, a, number, numbers);
    }
    number
}

// Along thread t, whose body begins at `first`: the number of its next action, in the place of its first one's.
fn number_thread(
    table: &[u8],
    n: usize,
    t: usize,
    first: usize,
    next: &[u16; 1024],
    numbers: &mut [u16; 1024],
) -> usize
    requires accepted { Accepted table.now n }
    requires placed { Placed table.now n next.now }
    requires t_lt_n { t < n }
    requires numbering { Numbering (table_of table.now) next.now t first numbers.old }
    ensures { Numbering (table_of table.now) next.now (t + 1) result numbers.new }
{
    let stop = first + read::count(table, t);
    let at = next[t] as usize;
    let start = numbers[t] as usize;
    let number = advance(table, n, first, at, start, numbers);
    numbers[t] = number as u16;
    advance(table, n, at, stop - 1, number, numbers);
    stop
}

// The parents before their children, each thread's number in the place of its length.
fn fill_numbers(table: &[u8], n: usize, next: &[u16; 1024], numbers: &mut [u16; 1024])
    requires accepted { Accepted table.now n }
    requires placed { Placed table.now n next.now }
    requires lengths { Lengths (table_of table.now) numbers.old 0 }
    ensures { Numbers (table_of table.now) next.now numbers.new }
{
    numbers[0] = 0;
    let mut first = 0;
    for t in 0..n {
        first = number_thread(table, n, t, first, next, numbers);
    }
}

// The number of the thread at place i of the list.
fn number_at(numbers: &[u16; 1024], list: &[u16; 1024], i: usize) -> u16
    requires { (i < 1024) × (get_or list.now i 0 < 1024) }
    ensures { result ≡ get_or numbers.now (get_or list.now i 0) 0 }
{
    numbers[list[i] as usize]
}

// The numbers rise along the list.
fn rising(numbers: &[u16; 1024], list: &[u16; 1024], len: usize) -> bool
    requires len_bound { (len ≤ 1024) × (length list.now ≡ 1024) }
    requires by_index { (i : ℕ) → i < len → get_or list.now i 0 < 1024 }
    ensures { result ≡ rises (λ t. get_or numbers.now t 0) (take len list.now) }
{
    for i in 1..len {
        if number_at(numbers, list, i) <= number_at(numbers, list, i - 1) {
            return false;
        }
    }
    true
}

// "the list in serial order", the numbers kept in `numbers`, whatever it held.
pub(crate) fn in_serial_order(
    table: &[u8],
    n: usize,
    next: &[u16; 1024],
    list: &[u16; 1024],
    len: usize,
    numbers: &mut [u16; 1024],
) -> bool
    requires accepted { Accepted table.now n }
    requires placed { Placed table.now n next.now }
    requires len_bound { (len ≤ 1024) × (length list.now ≡ 1024) × (all_in (λ t. ltb t n) (take len list.now) ≡ true) }
    ensures { result ≡ in_serial_order (table_of table.now) next.now (take len list.now) }
{
    *numbers = [0; 1024];
    fill_lengths(table, n, numbers);
    fill_numbers(table, n, next, numbers);
    rising(numbers, list, len)
}
