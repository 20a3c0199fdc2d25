// The joined table's rows: the head, the entries, the new root, and the parts' actions.
ghost use Rattle.std.specs.Prelude.{◌≡◌, suc, ◌+◌, ◌*◌, length};
ghost use Rattle.text.specs.Text.{buffer_at};
ghost use Rattle.text.specs.Puts.{put_all};
ghost use Rattle.joining.specs.Answers.{parts_of};
ghost use Rattle.joining.specs.Code.Steps.{LentFew};
ghost use Rattle.joining.specs.Code.Rows.{starts_over, entries_over, moved_over, fork_rows, join_rows, threads_over, actions_over, joined_rows};

use crate::split::part_at;
use rows::{put_action, put_entries, put_moved, put_pair};
use table::kinds::Kind;
use table::read::{actions, threads};

// The loops below differ in what they put and in what they add up: one for all would take both as closures, and be longer.

// The parts' entries, after those of the root.
fn put_part_entries(out: &mut [u8], at: usize, tables: &[u8], lengths: &[u32]) -> usize
    requires { LentFew lengths.now tables.now }
    ensures { buffer_at out.new result
        ≡ put_all (buffer_at out.old at) (entries_over (suc (2 * length lengths.now)) (parts_of lengths.now tables.now)) }
{
    let mut at = at;
    let mut before = 2 * lengths.len() + 1;
    for i in 0..lengths.len() {
        let part = part_at(tables, lengths, i);
        at = put_entries(out, at, part, before as u16);
        before += actions(part);
    }
    at
}

// The parts' actions, their threads after the root.
fn put_part_actions(out: &mut [u8], at: usize, tables: &[u8], lengths: &[u32]) -> usize
    requires { LentFew lengths.now tables.now }
    ensures { buffer_at out.new result ≡ put_all (buffer_at out.old at) (moved_over 1 (parts_of lengths.now tables.now)) }
{
    let mut at = at;
    let mut root = 1;
    for i in 0..lengths.len() {
        let part = part_at(tables, lengths, i);
        at = put_moved(out, at, part, root as u16);
        root += threads(part);
    }
    at
}

// The root forks each part's root in the order given.
fn put_forks(out: &mut [u8], at: usize, tables: &[u8], lengths: &[u32]) -> usize
    requires { LentFew lengths.now tables.now }
    ensures { buffer_at out.new result ≡ put_all (buffer_at out.old at) (fork_rows (starts_over 1 (parts_of lengths.now tables.now))) }
{
    let mut at = at;
    let mut root = 1;
    for i in 0..lengths.len() {
        at = put_action(out, at, Kind::Fork.code(), root);
        root += threads(part_at(tables, lengths, i));
    }
    at
}

// It joins them in reverse.
fn put_joins(out: &mut [u8], at: usize, tables: &[u8], lengths: &[u32], n: usize) -> usize
    requires { LentFew lengths.now tables.now × (n ≡ suc (threads_over (parts_of lengths.now tables.now))) }
    ensures { buffer_at out.new result ≡ put_all (buffer_at out.old at) (join_rows (starts_over 1 (parts_of lengths.now tables.now))) }
{
    let mut at = at;
    let mut root = n;
    for i in (0..lengths.len()).rev() {
        root -= threads(part_at(tables, lengths, i));
        at = put_action(out, at, Kind::Join.code(), root);
    }
    at
}

// The joined table of n threads and m actions.
pub(crate) fn put_joined(
    out: &mut [u8],
    tables: &[u8],
    lengths: &[u32],
    n: usize,
    m: usize,
) -> usize
    requires { LentFew lengths.now tables.now × (n ≡ suc (threads_over (parts_of lengths.now tables.now))) × (m ≡ suc (2 * length lengths.now) + actions_over (parts_of lengths.now tables.now)) }
    ensures { buffer_at out.new result ≡ put_all (buffer_at out.old 0) (joined_rows (parts_of lengths.now tables.now)) }
{
    let at = put_pair(out, 0, n, m);
    let at = put_pair(out, at, 0, 2 * lengths.len() + 1);
    let at = put_part_entries(out, at, tables, lengths);
    let at = put_forks(out, at, tables, lengths);
    let at = put_joins(out, at, tables, lengths, n);
    let at = put_action(out, at, Kind::End.code(), 0);
    put_part_actions(out, at, tables, lengths)
}
