// Memory held by what is done.
ghost use Rattle.std.specs.Prelude.{◌≡◌};
ghost use Rattle.table.specs.Format.{table_of};
ghost use Rattle.table.specs.Checks.{alloc_of, free_of};
ghost use Rattle.schedule.specs.Sound.{held_right};
ghost use Rattle.soundness.specs.Code.Checks.{Accepted, Placed};
ghost use Rattle.soundness.specs.Code.Adding.{Adds, Added};

use crate::bodies::done_to;
use table::read;

#[derive(Drop)]
pub(crate) struct Sums {
    pub(crate) allocs: u64,
    pub(crate) frees: u64,
}

// What the actions of thread t below stop drew and gave back, added to what came before.
fn thread_sums(table: &[u8], n: usize, t: usize, stop: usize, before: Sums) -> Sums
    requires { Adds table.now n t stop before }
    ensures added { Added (alloc_of (table_of table.now)) ((table_of table.now).first t) stop before.allocs result.allocs }
    ensures added_2 { Added (free_of (table_of table.now)) ((table_of table.now).first t) stop before.frees result.frees }
{
    let mut allocs = before.allocs;
    let mut frees = before.frees;
    let actions = read::bodies(table, n);
    for a in read::first(table, t)..stop {
        let action = read::action_in(actions, a);
        allocs += action.alloc();
        frees += action.free();
    }
    Sums { allocs, frees }
}

// "held is allocs done less frees done"
pub(crate) fn held_right(
    table: &[u8],
    n: usize,
    next: &[u16; 1024],
    status: &[u8; 1024],
    held: u64,
) -> bool
    requires accepted { Accepted table.now n }
    requires placed { Placed table.now n next.now }
    ensures { result ≡ held_right (table_of table.now) next.now status.now held }
{
    let mut sums = Sums {
        allocs: 0,
        frees: 0,
    };
    for t in 0..n {
        let stop = done_to(t, next, status);
        sums = thread_sums(table, n, t, stop, sums);
    }
    let allocs = sums.allocs;
    let frees = sums.frees;
    frees <= allocs && held == allocs - frees
}
