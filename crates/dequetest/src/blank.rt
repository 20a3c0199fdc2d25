// The blank record, on parts in lent memory: "every number 0", both lists of links too.
ghost use Rattle.std.specs.Prelude.{◌≡◌};
ghost use Rattle.dequetest.specs.DequeTested.{deque_blank_on};

use schedule::Worker;
use soundness::blank_in;

// The table stands apart from the parts. The second list's links are asked in the place of the first's.
pub fn deque_blank_in(
    p: u8,
    quota: u32,
    next: &[u16; 1024],
    status: &[u8; 1024],
    amounts: &[u64; 1024],
    left: &[u16; 1024],
    right: &[u16; 1024],
    leftmost: u16,
    under: &[u16; 1024],
    over: &[u16; 1024],
    first: u16,
    workers: [Worker; 16],
    busy: u16,
    held: u64,
    highest: u64,
    turns: u64,
) -> bool
    ensures { result ≡ deque_blank_on p quota next.now status.now amounts.now
        (record { left = left.now; right = right.now; head = leftmost })
        (record { left = under.now; right = over.now; head = first }) workers busy held highest turns }
{
    let lines = blank_in(
        p, quota, next, status, amounts, left, right, leftmost, workers, busy, held, highest, turns,
    );
    if !lines {
        return false;
    }
    blank_in(
        p, quota, next, status, amounts, under, over, first, workers, busy, held, highest, turns,
    )
}
