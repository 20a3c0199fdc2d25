// A thread put into and taken out of a list of the words: its left links are row k, its right links row k + 1, its leftmost thread head h. Nothing is written where there are no such rows.
ghost use Rattle.std.specs.Prelude.{◌≡◌, ltb};
ghost use Rattle.table.specs.Sum.{pick};
ghost use Rattle.schedule.specs.Links.{seek as seek_of};
ghost use Rattle.run_memory.specs.Blocks.{bytes_in, words_in};
ghost use Rattle.run_memory.specs.Places.{head_at};
ghost use Rattle.run_memory.specs.Code.Writes.{linked_left, unlinked};
ghost use Rattle.run_memory.specs.Code.Found.{found};

use crate::places::{head_at, put_head, put_row, row_at, status_at};
use links::NO_THREAD;
use schedule::statuses::READY;

// The leftmost ready thread, and how many threads stand left of it.
#[derive(Clone, Copy)]
pub(crate) struct Sought {
    pub(crate) thread: u16,
    pub(crate) passed: u16,
}

// Puts c directly left of t.
pub fn link_left(words: &mut [u16; 6163], k: usize, h: usize, c: u16, t: u16)
    ensures { words_in words.new ≡ pick (ltb k 5) (linked_left k h c t (words_in words.old)) (words_in words.old) }
{
    if 5 <= k {
        return;
    }
    let x = row_at(&*words, k, t);
    put_row(words, k, t, c);
    put_row(words, k, c, x);
    put_row(words, k + 1, x, c);
    put_row(words, k + 1, c, t);
    if NO_THREAD <= x {
        put_head(words, h, c);
    }
}

// Takes t out.
pub fn unlink(words: &mut [u16; 6163], k: usize, h: usize, t: u16)
    ensures { words_in words.new ≡ pick (ltb k 5) (unlinked k h t (words_in words.old)) (words_in words.old) }
{
    if 5 <= k {
        return;
    }
    let x = row_at(&*words, k, t);
    let y = row_at(&*words, k + 1, t);
    put_row(words, k, y, x);
    put_row(words, k, t, NO_THREAD);
    put_row(words, k + 1, x, y);
    put_row(words, k + 1, t, NO_THREAD);
    if NO_THREAD <= x {
        put_head(words, h, y);
    }
}

// The search along row k, from head h, over 1,024 threads at most.
pub(crate) fn seek(bytes: &[u8; 1040], words: &[u16; 6163], k: usize, h: usize) -> Option<Sought>
    ensures { result ≡ found (seek_of 1024 (bytes_in bytes.now).status ((words_in words.now).rows k) (head_at h (words_in words.now))) }
{
    let mut t = head_at(words, h);
    for passed in 0u16..1024 {
        if NO_THREAD <= t {
            return None;
        }
        if status_at(bytes, t) == READY {
            return Some(Sought { thread: t, passed });
        }
        t = row_at(words, k, t);
    }
    None
}
