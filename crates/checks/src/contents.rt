// Check 4: each entry begins where the one before it ends, and all counts add up to m.
ghost use Rattle.std.specs.Prelude.{◌≡◌, not, ◌||◌, eqb};
ghost use Rattle.table.specs.Format.{table_of};
ghost use Rattle.table.specs.Pass.{try_pass, or_else};
ghost use Rattle.table.specs.Checks.{entries_pass, total_pass};
ghost use Rattle.table.specs.Code.Steps.{Headed};

use table::Refusal;
use table::read::{count, first};

// An entry that does not begin at the sum of the earlier counts, or has no action.
fn entry_wrong(first: usize, count: usize, sum: usize) -> bool
    ensures { result ≡ (not (eqb first sum) || eqb count 0) }
{
    first != sum || count == 0
}

pub(crate) fn contents(table: &[u8], n: usize, m: usize) -> Result<(), Refusal>
    requires { Headed table.now n m }
    ensures { result ≡ or_else (try_pass (entries_pass (table_of table.now))) (try_pass (total_pass (table_of table.now))) }
{
    let mut sum = 0;
    for t in 0..n {
        let first = first(table, t);
        let count = count(table, t);
        if entry_wrong(first, count, sum) {
            return Err(Refusal::new(4, t as u16));
        }
        sum += count;
    }
    if sum != m {
        return Err(Refusal::new(4, n as u16));
    }
    Ok(())
}
