// Check 32 on the parts of a run, wherever they are lent: a sound record, the blank one, or neither.
ghost use Rattle.std.specs.Prelude.{◌≡◌, ◌&&◌, replicate};
ghost use Rattle.table.specs.Format.{table_of};
ghost use Rattle.soundness.specs.Tested.{parents_if, sound_on, blank_on};
ghost use Rattle.wivakkol.specs.Code.Standing.{standing_of, is_sound};

use schedule::Worker;
use soundness::{blank_in, test_in};

// What stands in the memory of a run.
#[derive(Clone, Copy, Debug, PartialEq, Eq)]
pub enum Standing {
    Sound,
    Blank,
    Neither,
}

// What the parts hold; `written` says that every worker's truth value is 0 or 1. Each thread's parent is then in `seen` where they hold a sound record, else 0; the other working memory is left
// cleared.
pub fn standing_of(
    table: &[u8],
    p: u8,
    quota: u32,
    next: &[u16; 1024],
    status: &[u8; 1024],
    amounts: &[u64; 1024],
    left: &[u16; 1024],
    right: &[u16; 1024],
    leftmost: u16,
    written: bool,
    workers: [Worker; 16],
    busy: u16,
    held: u64,
    highest: u64,
    turns: u64,
    rises: &mut [u64; 1024],
    falls: &mut [u64; 1024],
    forks: &mut [u16; 1024],
    seen: &mut [u16; 1024],
    list: &mut [u16; 1024],
) -> Standing
    ensures value { result ≡ standing_of
        (written && sound_on table.now p quota next.now status.now amounts.now (record { left = left.now; right = right.now; head = leftmost }) workers busy held highest turns)
        (blank_on p quota next.now status.now amounts.now (record { left = left.now; right = right.now; head = leftmost }) workers busy held highest turns) }
    ensures seen_after { seen.new ≡ parents_if (is_sound result) (table_of table.now) }
    ensures rises_after { (rises.new ≡ replicate 1024 0) × (falls.new ≡ replicate 1024 0) }
    ensures forks_after { (forks.new ≡ replicate 1024 0) × (list.new ≡ replicate 1024 0) }
{
    let passed = test_in(
        table, p, quota, next, status, amounts, left, right, leftmost, workers, busy, held,
        highest, turns, rises, falls, forks, seen, list,
    );
    if written && passed {
        return Standing::Sound;
    }
    *seen = [0; 1024];
    let blank = blank_in(
        p, quota, next, status, amounts, left, right, leftmost, workers, busy, held, highest, turns,
    );
    if blank {
        Standing::Blank
    } else {
        Standing::Neither
    }
}
