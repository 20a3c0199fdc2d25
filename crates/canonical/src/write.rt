// The canonical form of an accepted table: the new numbers of its threads, the threads in their order, and the rows.
ghost use Rattle.std.specs.Prelude.{◌≡◌, ◌≤◌, length, replicate, take};
ghost use Rattle.text.specs.Text.{buffer_at};
ghost use Rattle.text.specs.Puts.{put_all};
ghost use Rattle.rows.specs.Rows.{over, named_by};
ghost use Rattle.canonical.specs.Canonical.{canonical};
ghost use Rattle.canonical.specs.Code.Rows.{Accepts, form_rows};

use crate::numbers::{numbers_in, order_in};
use rows::{put_bodies, put_ordered, put_pair};
use table::read::{actions, threads};

// Head, entries and bodies of the n threads in `order`.
fn put_form(out: &mut [u8], table: &[u8], n: usize, order: &[u16], names: &[u16]) -> usize
    requires { n ≤ length order.now }
    ensures { buffer_at out.new result ≡ put_all (buffer_at out.old 0) (form_rows table.now (named_by names.now) (take n order.now)) }
{
    let threads_in = &order[..n];
    let at = put_pair(out, 0, threads(table), actions(table));
    let at = put_ordered(out, at, table, threads_in);
    put_bodies(out, at, table, threads_in, names)
}

// The form at the start of the buffer, and its length. The working memory is left cleared.
pub(crate) fn write_form(
    table: &[u8],
    out: &mut [u8],
    names: &mut [u16; 1024],
    order: &mut [u16; 1024],
) -> usize
    requires { Accepts table.now × (36868 ≤ length out.old) }
    ensures value { (result ≡ length (canonical table.now)) × (out.new ≡ over (canonical table.now) out.old) }
    ensures names_after { (names.new ≡ replicate 1024 0) × (order.new ≡ replicate 1024 0) }
{
    let n = threads(table);
    numbers_in(table, order, names);
    order_in(names, n, order);
    let k = put_form(out, table, n, &order[..], &names[..]);
    *names = [0; 1024];
    *order = [0; 1024];
    k
}
