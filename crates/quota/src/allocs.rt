// The least quota in range: the table's largest alloc.
ghost use Rattle.std.specs.Prelude.{◌≡◌};
ghost use Rattle.table.specs.Format.{table_of};
ghost use Rattle.quota.specs.Quota.{least_quota};

use table::read::{action_in, actions, bodies, threads};

// The largest alloc, 1 if there is none.
pub fn least_quota(table: &[u8]) -> usize
    ensures { result ≡ least_quota (table_of table.now) }
{
    let list = bodies(table, threads(table));
    let m = actions(table);
    let mut least = 1u64;
    for a in 0..m {
        least = least.max(action_in(list, a).alloc());
    }
    least as usize
}
