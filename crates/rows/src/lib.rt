// A table's bytes, a row of four at a time, put into a lent buffer: what `table::read` reads, written.
#![tactic(auto)]

ghost use Rattle.std.specs.Prelude.{◌≡◌, ◌<◌};
ghost use Rattle.table.specs.Sum.{Read};
ghost use Rattle.table.specs.Format.{bodies_of, first_of, count_of, threads_of, actions_of};
ghost use Rattle.text.specs.Text.{buffer_at, placed};
ghost use Rattle.text.specs.Puts.{put_all};
ghost use Rattle.parts.specs.Copies.{renamed};
ghost use Rattle.rows.specs.Rows.{cut_pair, cut_action, renamed_rows, named_by, moved_by, shifted_entries, ordered_entries, ordered_rows};

use table::kinds::Kind;
use table::read::{action_in, actions, bodies, count, first, threads};
use text::put_word;

// Two numbers of 16 bits.
pub fn put_pair(out: &mut [u8], at: usize, a: usize, b: usize) -> usize
    ensures { buffer_at out.new result ≡ placed out.old at (cut_pair a b) }
{
    let row = [
        (a % 256) as u8,
        (a / 256 % 256) as u8,
        (b % 256) as u8,
        (b / 256 % 256) as u8,
    ];
    put_word(out, at, &row)
}

// A kind's code, and an argument of 24 bits.
pub fn put_action(out: &mut [u8], at: usize, k: u8, x: usize) -> usize
    ensures { buffer_at out.new result ≡ placed out.old at (cut_action k x) }
{
    let row = [
        k,
        (x % 256) as u8,
        (x / 256 % 256) as u8,
        (x / 65536 % 256) as u8,
    ];
    put_word(out, at, &row)
}

fn wide(x: u16) -> usize
    ensures { Read x 65536 result }
{
    x as usize
}

// A thread's new number, 0 where there is none.
fn name_of(names: &[u16], x: usize) -> usize
    ensures { Read (named_by names.now x) 65536 result }
{
    if x < names.len() { wide(names[x]) } else { 0 }
}

// An argument where threads have new numbers: forks and joins name threads.
fn named(kind: Kind, x: usize, names: &[u16]) -> usize
    ensures { result ≡ renamed (named_by names.now) kind x }
{
    match kind {
        Kind::Fork | Kind::Join => name_of(names, x),
        _ => x,
    }
}

// The actions of a body, with the threads' new numbers.
fn put_body(
    out: &mut [u8],
    at: usize,
    actions: &[u8],
    first: usize,
    count: usize,
    names: &[u16],
) -> usize
    requires { (count < 65536) × (first < 65536) }
    ensures { buffer_at out.new result ≡ put_all (buffer_at out.old at) (renamed_rows actions.now (named_by names.now) first count) }
{
    let mut at = at;
    for i in 0..count {
        let action = action_in(actions, first + i);
        let x = named(action.kind(), action.argument, names);
        at = put_action(out, at, action.code, x);
    }
    at
}

// The actions of thread t.
pub fn put_named(out: &mut [u8], at: usize, table: &[u8], t: usize, names: &[u16]) -> usize
    ensures { buffer_at out.new result ≡ put_all (buffer_at out.old at)
        (renamed_rows (bodies_of table.now) (named_by names.now) (first_of table.now t) (count_of table.now t)) }
{
    let actions = bodies(table, threads(table));
    put_body(out, at, actions, first(table, t), count(table, t), names)
}

// The entries of a table's threads in another order.
pub fn put_ordered(out: &mut [u8], at: usize, table: &[u8], order: &[u16]) -> usize
    ensures { buffer_at out.new result ≡ put_all (buffer_at out.old at) (ordered_entries table.now 0 order.now) }
{
    let mut at = at;
    let mut before = 0;
    for t in order {
        let size = count(table, wide(*t));
        at = put_pair(out, at, before, size);
        before = (before + size) % 65536;
    }
    at
}

// Their bodies, with the threads' new numbers.
pub fn put_bodies(out: &mut [u8], at: usize, table: &[u8], order: &[u16], names: &[u16]) -> usize
    ensures { buffer_at out.new result
        ≡ put_all (buffer_at out.old at) (ordered_rows table.now (named_by names.now) order.now) }
{
    let mut at = at;
    for t in order {
        at = put_named(out, at, table, wide(*t), names);
    }
    at
}

// An argument where threads are moved up by o.
fn moved(kind: Kind, x: usize, o: usize) -> usize
    requires { (x < 16777216) × (o < 65536) }
    ensures { result ≡ renamed (moved_by o) kind x }
{
    match kind {
        Kind::Fork | Kind::Join => o + x,
        _ => x,
    }
}

fn put_actions(out: &mut [u8], at: usize, actions: &[u8], count: usize, o: usize) -> usize
    requires { (count < 65536) × (o < 65536) }
    ensures { buffer_at out.new result ≡ put_all (buffer_at out.old at) (renamed_rows actions.now (moved_by o) 0 count) }
{
    let mut at = at;
    for i in 0..count {
        let action = action_in(actions, i);
        let x = moved(action.kind(), action.argument, o);
        at = put_action(out, at, action.code, x);
    }
    at
}

// The actions of a table, its threads moved up by o.
pub fn put_moved(out: &mut [u8], at: usize, table: &[u8], o: u16) -> usize
    ensures { buffer_at out.new result ≡ put_all (buffer_at out.old at) (renamed_rows (bodies_of table.now) (moved_by o) 0 (actions_of table.now)) }
{
    let list = bodies(table, threads(table));
    put_actions(out, at, list, actions(table), wide(o))
}

// The entries of a table, where o actions stand before its own.
pub fn put_entries(out: &mut [u8], at: usize, table: &[u8], o: u16) -> usize
    ensures { buffer_at out.new result ≡ put_all (buffer_at out.old at) (shifted_entries table.now o 0 (threads_of table.now)) }
{
    let n = threads(table);
    let before = wide(o);
    let mut at = at;
    for t in 0..n {
        at = put_pair(out, at, before + first(table, t), count(table, t));
    }
    at
}
