// Check 32 on the blocks of a run, as opening it tests them, and what an opening fills.
ghost use Rattle.std.specs.Prelude.{◌≡◌, replicate};
ghost use Rattle.table.specs.Format.{table_of};
ghost use Rattle.soundness.specs.Tested.{parents_if};
ghost use Rattle.run_memory.specs.Stands.{truths};
ghost use Rattle.run_memory.specs.Blocks.{bytes_in, words_in, memory_of};
ghost use Rattle.run_memory.specs.Places.{headed, laid_row};
ghost use Rattle.wivakkol.specs.Opened.{lent_open};
ghost use Rattle.wivakkol.specs.Code.Standing.{standing, is_sound};
ghost use Rattle.wivakkol_marks.specs.LentMarks.{fit_in};
ghost use Rattle.wivakkol_marks.specs.Code.LaidOut.{LaidOut};

use links::fill_actives;
use run_memory::copies::{amounts_out, copy_row, row_out, statuses_out, workers_out};
use run_memory::lent::{truths_right, workers};
use run_memory::places::{
    BUSY, FIRST, HELD, HIGHEST, LEFT, LEFTMOST, NEXT, OVER, PARENTS, QUOTA, RIGHT, TURNS, UNDER,
    WORKERS, head_at, put_head, setting_at, total_at,
};
use wivakkol::standing::{Standing, standing_of};

// Every worker's truth value is 0 or 1.
fn written(bytes: &[u8; 1040]) -> bool
    ensures { result ≡ truths (bytes_in bytes.now).holds }
{
    let mut holds = [0; 16];
    holds.copy_from_slice(&bytes[1024..]);
    truths_right(&holds)
}

// The parts that are tested as arrays.
fn lay_out(
    bytes: &[u8; 1040],
    words: &[u16; 6163],
    sums: &[u64; 1027],
    next: &mut [u16; 1024],
    status: &mut [u8; 1024],
    amounts: &mut [u64; 1024],
    left: &mut [u16; 1024],
    right: &mut [u16; 1024],
)
    ensures { LaidOut bytes.now words.now sums.now next.new status.new amounts.new left.new right.new }
{
    row_out(words, NEXT, next);
    row_out(words, LEFT, left);
    row_out(words, RIGHT, right);
    statuses_out(bytes, status);
    amounts_out(sums, amounts);
}

// What stands in the blocks. Each thread's parent is then in `seen` where that is a sound record, else 0; the parts that were tested are in their arrays.
fn standing_in(
    table: &[u8],
    bytes: &[u8; 1040],
    words: &[u16; 6163],
    numbers: &[u32; 18],
    sums: &[u64; 1027],
    next: &mut [u16; 1024],
    status: &mut [u8; 1024],
    amounts: &mut [u64; 1024],
    left: &mut [u16; 1024],
    right: &mut [u16; 1024],
    rises: &mut [u64; 1024],
    falls: &mut [u64; 1024],
    forks: &mut [u16; 1024],
    seen: &mut [u16; 1024],
    list: &mut [u16; 1024],
) -> Standing
    ensures value { result ≡ standing table.now (memory_of bytes.now words.now numbers.now sums.now) }
    ensures seen_after { seen.new ≡ parents_if (is_sound result) (table_of table.now) }
    ensures forks_after { (forks.new ≡ replicate 1024 0) × (list.new ≡ replicate 1024 0) }
    ensures laid_out { LaidOut bytes.now words.now sums.now next.new status.new amounts.new left.new right.new }
{
    lay_out(bytes, words, sums, next, status, amounts, left, right);
    let records = workers_out(bytes, words, numbers);
    standing_of(
        table,
        workers(setting_at(numbers, WORKERS)),
        setting_at(numbers, QUOTA),
        &*next,
        &*status,
        &*amounts,
        &*left,
        &*right,
        head_at(words, LEFTMOST),
        written(bytes),
        records,
        head_at(words, BUSY),
        total_at(sums, HELD),
        total_at(sums, HIGHEST),
        total_at(sums, TURNS),
        rises,
        falls,
        forks,
        seen,
        list,
    )
}

// 32 does not apply to what stands in the blocks.
pub(crate) fn fit(
    table: &[u8],
    bytes: &[u8; 1040],
    words: &[u16; 6163],
    numbers: &[u32; 18],
    sums: &[u64; 1027],
    next: &mut [u16; 1024],
    status: &mut [u8; 1024],
    amounts: &mut [u64; 1024],
    left: &mut [u16; 1024],
    right: &mut [u16; 1024],
    rises: &mut [u64; 1024],
    falls: &mut [u64; 1024],
    forks: &mut [u16; 1024],
    seen: &mut [u16; 1024],
    list: &mut [u16; 1024],
) -> bool
    ensures { result ≡ fit_in table.now (memory_of bytes.now words.now numbers.now sums.now) }
{
    let found = standing_in(
        table, bytes, words, numbers, sums, next, status, amounts, left, right, rises, falls,
        forks, seen, list,
    );
    found != Standing::Neither
}

// What stands beside a record: each thread's parent, and the second list.
fn put_beside(
    words: &mut [u16; 6163],
    parents: &[u16; 1024],
    under: &[u16; 1024],
    over: &[u16; 1024],
    first: u16,
)
    ensures { words_in words.new ≡ headed 1 first (laid_row 5 over.now (laid_row 4 under.now (laid_row 0 parents.now (words_in words.old)))) }
{
    copy_row(words, PARENTS, parents);
    copy_row(words, UNDER, under);
    copy_row(words, OVER, over);
    put_head(words, FIRST, first);
}

// Opens the run in the blocks: where a sound record or the blank one stands there, what stands beside it is made anew.
pub(crate) fn reopen(
    table: &[u8],
    bytes: &[u8; 1040],
    words: &mut [u16; 6163],
    numbers: &[u32; 18],
    sums: &[u64; 1027],
    next: &mut [u16; 1024],
    status: &mut [u8; 1024],
    amounts: &mut [u64; 1024],
    left: &mut [u16; 1024],
    right: &mut [u16; 1024],
    rises: &mut [u64; 1024],
    falls: &mut [u64; 1024],
    forks: &mut [u16; 1024],
    seen: &mut [u16; 1024],
    list: &mut [u16; 1024],
)
    ensures { memory_of bytes.now words.new numbers.now sums.now
        ≡ (lent_open table.now (memory_of bytes.now words.old numbers.now sums.now)).memory }
{
    let found = standing_in(
        table, bytes, &*words, numbers, sums, next, status, amounts, left, right, rises, falls,
        forks, seen, list,
    );
    match found {
        Standing::Sound => {
            let leftmost = head_at(&*words, LEFTMOST);
            let first = fill_actives(&*status, &*right, leftmost, forks, list);
            put_beside(words, &*seen, &*forks, &*list, first);
        }
        Standing::Blank => put_beside(words, &*seen, &*forks, &*list, 0),
        Standing::Neither => {}
    }
}
