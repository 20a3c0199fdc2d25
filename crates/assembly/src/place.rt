// The line of a table's refusal.
ghost use Rattle.std.specs.Prelude.{◌≡◌, ◌≤◌, ◌&&◌, eqb, length};
ghost use Rattle.assembly.specs.Said.{saids};
ghost use Rattle.assembly.specs.Assembly.{line_that, left_after, names_thread, longest_text, refused_at as refused_of};
ghost use Rattle.assembly.specs.Code.Steps.{of_sort};

use crate::line::{is_of, read_line};
use table::Refusal;

// For 4 and 11 a refusal's place is a thread.
fn names_thread(number: u8) -> bool
    ensures { result ≡ names_thread number }
{
    number == 4 || number == 11
}

// What is left to count after a line.
fn left_after(counts: bool, k: usize) -> usize
    ensures { result ≡ left_after counts k }
{
    if counts { k.saturating_sub(1) } else { k }
}

// A line that counts, with none left to count before it.
fn stands(counts: bool, k: usize) -> bool
    ensures { result ≡ (counts && eqb k 0) }
{
    counts && k == 0
}

// The line of the k-th thread, or of the k-th action.
fn line_that(text: &[u8], threads: bool, k: usize) -> usize
    requires { length text.now ≤ longest_text }
    ensures { result ≡ line_that (of_sort threads) 1 k (saids text.now) }
{
    let mut at = 0;
    let mut line = 1;
    let mut left = k;
    while at < text.len() {
        let read = read_line(text, at);
        let said = read.said;
        let counts = is_of(threads, said);
        if stands(counts, left) {
            return line;
        }
        left = left_after(counts, left);
        line += 1;
        at = read.next;
    }
    0
}

pub(crate) fn refused_at(text: &[u8], refusal: Refusal) -> usize
    requires { length text.now ≤ longest_text }
    ensures { result ≡ refused_of refusal (saids text.now) }
{
    let number = refusal.number;
    line_that(text, names_thread(number), refusal.place as usize)
}
