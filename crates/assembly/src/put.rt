// A table's bytes, a row of four at a time: the head, an entry for each thread, the actions.
ghost use Rattle.std.specs.Prelude.{◌≡◌, ◌≤◌, length, drop};
ghost use Rattle.text.specs.Text.{buffer_at};
ghost use Rattle.text.specs.Puts.{put_all};
ghost use Rattle.assembly.specs.Said.{saids};
ghost use Rattle.assembly.specs.Assembly.{entry_rows, actions_after, entries_from, action_rows, actions_in, table_rows, longest_text};
ghost use Rattle.assembly.specs.Code.Steps.{CountsBody};

use crate::Said;
use crate::line::{is_of, read_line};
use rows::{put_action, put_pair};

// The actions before the next thread, from a position on.
fn body_count(text: &[u8], at: usize) -> usize
    ensures { CountsBody text.now at result }
{
    let mut at = at;
    let mut count = 0;
    while at < text.len() {
        let read = read_line(text, at);
        let said = read.said;
        if is_of(true, said) {
            return count;
        }
        if is_of(false, said) {
            count += 1;
        }
        at = read.next;
    }
    count
}

// The entry of a thread's line, after which the text goes on at `next`.
fn put_entry(out: &mut [u8], at: usize, said: Said, a: usize, text: &[u8], next: usize) -> usize
    ensures { buffer_at out.new result ≡ put_all (buffer_at out.old at) (entry_rows said a (saids (drop next text.now))) }
{
    match said {
        Said::Nothing => at,
        Said::Thread(_) => {
            let count = body_count(text, next);
            put_pair(out, at, a, count)
        }
        Said::Action(_, _) => at,
        Said::Expects(_) => at,
    }
}

fn actions_after(said: Said, a: usize) -> usize
    requires { a ≤ longest_text }
    ensures { result ≡ actions_after said a }
{
    if is_of(false, said) { a + 1 } else { a }
}

fn put_entries(out: &mut [u8], at: usize, text: &[u8]) -> usize
    requires { length text.now ≤ longest_text }
    ensures { buffer_at out.new result ≡ put_all (buffer_at out.old at) (entries_from 0 (saids text.now)) }
{
    let mut at = at;
    let mut from = 0;
    let mut a = 0;
    while from < text.len() {
        let read = read_line(text, from);
        let said = read.said;
        let next = read.next;
        at = put_entry(out, at, said, a, text, next);
        a = actions_after(said, a);
        from = next;
    }
    at
}

fn put_row(out: &mut [u8], at: usize, said: Said) -> usize
    ensures { buffer_at out.new result ≡ put_all (buffer_at out.old at) (action_rows said) }
{
    match said {
        Said::Nothing => at,
        Said::Thread(_) => at,
        Said::Action(k, x) => put_action(out, at, k, x),
        Said::Expects(_) => at,
    }
}

fn put_actions(out: &mut [u8], at: usize, text: &[u8]) -> usize
    ensures { buffer_at out.new result ≡ put_all (buffer_at out.old at) (actions_in (saids text.now)) }
{
    let mut at = at;
    let mut from = 0;
    while from < text.len() {
        let read = read_line(text, from);
        let said = read.said;
        at = put_row(out, at, said);
        from = read.next;
    }
    at
}

// The table of a text of n threads and m actions.
pub(crate) fn put_table(out: &mut [u8], text: &[u8], n: usize, m: usize) -> usize
    requires { length text.now ≤ longest_text }
    ensures { buffer_at out.new result ≡ put_all (buffer_at out.old 0) (table_rows n m (saids text.now)) }
{
    let at = put_pair(out, 0, n, m);
    let at = put_entries(out, at, text);
    put_actions(out, at, text)
}
