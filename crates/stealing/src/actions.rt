// Whether the first action of a thread fits, of a worker that is about to steal it: asked of the numbers that stand there before the steal, since a refused turn writes nothing.
ghost use Rattle.std.specs.Prelude.{◌≡◌, not, ◌&&◌, ◌||◌, ◌+◌, ◌<◌, get_or, ltb, eqb};
ghost use Rattle.table.specs.Format.{Table, code_at, argument_at};
ghost use Rattle.schedule.specs.Machine.{ready, ended};
ghost use Rattle.array_machine.specs.Turn.{next_fits, amount_fits};
ghost use Rattle.run_memory.specs.Blocks.{Numbers, bytes_in, words_in, sums_in, gathered};
ghost use Rattle.stealing.specs.Code.{stolen_on};

use array_machine::fits::{alloc_fits, fork_fits, free_fits, join_fits, next_fits};
use run_memory::places::{HELD, NEXT, amount_at, row_at, status_at, total_at};
use schedule::statuses::ENDED;
use table::kinds::Kind;
use table::read::action_in;

// A join of thread x waits, or the sum that it makes has its room.
fn join_goes(a: u16, x: usize, own: u64, bytes: &[u8; 1040], sums: &[u64; 1027]) -> bool
    ensures { result ≡ (ltb x 1024 && (not (eqb (get_or (bytes_in bytes.now).status x 0) ended) || (next_fits a && amount_fits (own + get_or (sums_in sums.now).amounts x 0)))) }
{
    if 1024 <= x {
        return false;
    }
    let child = x as u16;
    if status_at(bytes, child) != ENDED {
        return true;
    }
    join_fits(a, own, amount_at(sums, child))
}

// The action at which thread b is. With the whole quota no alloc is stopped.
pub(crate) fn action_fits(
    actions: &[u8],
    b: u16,
    bytes: &[u8; 1040],
    words: &[u16; 6163],
    sums: &[u64; 1027],
) -> bool
    requires { (b < 1024) × (get_or (bytes_in bytes.now).status b 0 ≡ ready) }
    ensures { (T : Table) (N : Numbers) → T.code ≡ code_at actions.now → T.argument ≡ argument_at actions.now
        → result ≡ (stolen_on T b (gathered (bytes_in bytes.now) (words_in words.now) N (sums_in sums.now))).fits }
{
    let a = row_at(words, NEXT, b);
    let action = action_in(actions, a as usize);
    let x = action.argument;
    let own = amount_at(sums, b);
    match action.kind() {
        Kind::Work => next_fits(a),
        Kind::Alloc => alloc_fits(a, total_at(sums, HELD), own, x as u64),
        Kind::Free => free_fits(a, total_at(sums, HELD), own, x as u64),
        Kind::Fork => fork_fits(a, x),
        Kind::Join => join_goes(a, x, own, bytes, sums),
        Kind::End => true,
        Kind::Unknown => true,
    }
}
