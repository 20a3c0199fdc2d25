// A table's text: each thread's line, and its actions one to a line, each with its number as a comment.
ghost use Rattle.std.specs.Prelude.{◌≡◌, ◌+◌, ◌*◌, ◌≤◌, ◌<◌};
ghost use Rattle.table.specs.Sum.{sum_to};
ghost use Rattle.table.specs.Format.{threads_of, table_of};
ghost use Rattle.text.specs.Puts.{Puts};
ghost use Rattle.assembly.specs.Disassembly.{thread_texts, operand_texts, action_texts, number_texts, body_texts, threads_texts};
ghost use Rattle.assembly.specs.Code.Steps.{Operand};

use table::kinds::Kind;
use table::read::{argument, count, first, kind};
use text::{put_labelled, put_word};

// A word with a number.
fn put_operand(out: &mut [u8], at: usize, word: &[u8], x: usize) -> usize
    requires { Operand word.now x }
    ensures { Puts out.old at out.new result (operand_texts word.now x) 14 }
{
    put_labelled(out, at, word, x as u64)
}

// An action's words.
fn put_action(out: &mut [u8], at: usize, kind: Kind, x: usize) -> usize
    requires { x < 16777216 }
    ensures { Puts out.old at out.new result (action_texts kind x) 14 }
{
    match kind {
        Kind::End => put_word(out, at, b"end"),
        Kind::Work => put_word(out, at, b"work"),
        Kind::Alloc => put_operand(out, at, b"alloc ", x),
        Kind::Free => put_operand(out, at, b"free ", x),
        Kind::Fork => put_operand(out, at, b"fork ", x),
        Kind::Join => put_operand(out, at, b"join ", x),
        Kind::Unknown => at,
    }
}

// The number of action a, and the line's end.
fn put_number(out: &mut [u8], at: usize, a: usize) -> usize
    requires { a < 1000000 }
    ensures { Puts out.old at out.new result (number_texts a) 17 }
{
    let at = put_labelled(out, at, b" # action ", a as u64);
    put_word(out, at, b"\n")
}

// The lines of some actions from one on, in a table of n threads.
fn put_body(out: &mut [u8], at: usize, table: &[u8], n: usize, from: usize, count: usize) -> usize
    requires { (n ≡ threads_of table.now) × (from < 65536) × (count < 65536) }
    ensures { Puts out.old at out.new result (body_texts (table_of table.now) from count) (31 * count) }
{
    let mut at = at;
    for i in 0..count {
        let a = from + i;
        at = put_action(out, at, kind(table, n, a), argument(table, n, a));
        at = put_number(out, at, a);
    }
    at
}

// The thread's own line.
fn put_thread(out: &mut [u8], at: usize, t: usize) -> usize
    requires { t < 1024 }
    ensures { Puts out.old at out.new result (thread_texts t) 12 }
{
    let at = put_labelled(out, at, b"thread ", t as u64);
    put_word(out, at, b"\n")
}

// The lines of all n threads.
pub(crate) fn put_threads(out: &mut [u8], table: &[u8], n: usize) -> usize
    requires { (n ≡ threads_of table.now) × (n ≤ 1024) }
    ensures { Puts out.old 0 out.new result (threads_texts (table_of table.now) n) (12 * n + 31 * sum_to (table_of table.now).count n) }
{
    let mut at = 0;
    for t in 0..n {
        at = put_thread(out, at, t);
        at = put_body(out, at, table, n, first(table, t), count(table, t));
    }
    at
}
