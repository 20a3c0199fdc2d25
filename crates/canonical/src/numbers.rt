// The numbers of a table's threads in its canonical form, on lent memory: a child's subtree is numbered before what its thread forks next.
ghost use Rattle.std.specs.Prelude.{◌≡◌, ◌^◌, ◌<◌, ◌≤◌, length, get_or, set, replicate};
ghost use Rattle.table.specs.Sum.{Read};
ghost use Rattle.table.specs.Format.{code_at, argument_at, table_of};
ghost use Rattle.canonical.specs.Code.NumberWalk.{cut16, fork_size, forked_sizes, sizes_down, numbered, number_body};
ghost use Rattle.canonical.specs.Code.NumbersOf.{numbers_of, order_of, Roomy, BodyIn, NumberStepped};

use table::kinds::Kind;
use table::read::{action_in, bodies, count, first, threads};

fn wide(x: u16) -> usize
    ensures { Read x 65536 result }
{
    x as usize
}

// The number at x, 0 where there is none.
fn number_at(numbers: &[u16; 1024], x: usize) -> usize
    requires { length numbers.now ≡ 1024 }
    ensures { Read (get_or numbers.now x 0) 65536 result }
{
    if x < 1024 { wide(numbers[x]) } else { 0 }
}

// What fits of v, at x.
fn put_number(numbers: &mut [u16; 1024], x: usize, v: usize)
    requires { length numbers.old ≡ 1024 }
    ensures { numbers.new ≡ set numbers.old x (cut16 v) }
{
    if x < 1024 {
        numbers[x] = (v % 65536) as u16;
    }
}

// The size of the child x that an action of kind k forks, else 0.
#[tactic(auto, unfolding(table::specs::Format::is, table::specs::Format::code_of))]
fn fork_size(kind: Kind, x: usize, sizes: &[u16; 1024]) -> usize
    requires { length sizes.now ≡ 1024 }
    ensures { Read (fork_size sizes.now kind x) 65536 result }
{
    if matches!(kind, Kind::Fork) {
        number_at(sizes, x)
    } else {
        0
    }
}

// The sizes of the children that a body forks.
fn forked_sizes(actions: &[u8], first: usize, count: usize, sizes: &[u16; 1024]) -> usize
    requires { (length sizes.now ≡ 1024) × BodyIn first count }
    ensures { Read (forked_sizes (code_at actions.now) (argument_at actions.now) sizes.now first count) (2 ^ 32) result }
{
    let mut total = 0;
    for i in 0..count {
        let action = action_in(actions, first + i);
        total += fork_size(action.kind(), action.argument, sizes);
    }
    total
}

// The children before their parents: a child has the higher number.
fn fill_sizes(table: &[u8], n: usize, actions: &[u8], sizes: &mut [u16; 1024])
    requires { Roomy table.now n actions.now }
    ensures { sizes.new ≡ sizes_down cut16 (table_of table.now) n (replicate 1024 0) }
{
    *sizes = [0; 1024];
    for t in (0..n).rev() {
        let total = forked_sizes(actions, first(table, t), count(table, t), sizes);
        put_number(sizes, t, 1 + total);
    }
}

// One action: a forked child gets the next number.
#[tactic(auto, unfolding(table::specs::Format::is, table::specs::Format::code_of))]
fn number_step(
    kind: Kind,
    x: usize,
    next: usize,
    sizes: &[u16; 1024],
    new: &mut [u16; 1024],
) -> usize
    requires { (length sizes.now ≡ 1024) × (length new.old ≡ 1024) × (next < 2 ^ 40) }
    ensures { NumberStepped sizes.now kind x (numbered new.old next) (numbered new.new result) }
{
    let after = next + fork_size(kind, x, sizes);
    if matches!(kind, Kind::Fork) {
        put_number(new, x, next);
    }
    after
}

// One body.
fn number_walk(
    actions: &[u8],
    first: usize,
    count: usize,
    start: usize,
    sizes: &[u16; 1024],
    new: &mut [u16; 1024],
) -> usize
    requires { (length sizes.now ≡ 1024) × (length new.old ≡ 1024) × (start < 2 ^ 32) × BodyIn first count }
    ensures { numbered new.new result
        ≡ number_body cut16 (code_at actions.now) (argument_at actions.now) sizes.now first count (numbered new.old start) }
{
    let mut next = start;
    for i in 0..count {
        let action = action_in(actions, first + i);
        next = number_step(action.kind(), action.argument, next, sizes, new);
    }
    next
}

// The new numbers of any bytes, those of an accepted table being the canonical form's. What the memory held does not matter.
pub(crate) fn numbers_in(table: &[u8], sizes: &mut [u16; 1024], new: &mut [u16; 1024])
    ensures { new.new ≡ numbers_of table.now }
{
    *new = [0; 1024];
    let n = threads(table);
    if 1024 < n {
        return;
    }
    let actions = bodies(table, n);
    fill_sizes(table, n, actions, sizes);
    for t in 0..n {
        let start = 1 + number_at(new, t);
        number_walk(actions, first(table, t), count(table, t), start, sizes, new);
    }
}

// The threads by their new numbers, of n threads that each have one below 1,024.
pub(crate) fn order_in(names: &[u16; 1024], n: usize, order: &mut [u16; 1024])
    requires { (length names.now ≡ 1024) × (n ≤ 1024) }
    ensures { order.new ≡ order_of names.now n }
{
    *order = [0; 1024];
    for t in 0..n {
        let at = number_at(names, t);
        put_number(order, at, t);
    }
}
