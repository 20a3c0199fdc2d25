// Checks 1 to 3: the head, and the length that it asks for.
ghost use Rattle.std.specs.Prelude.{◌≡◌, ◌||◌};
ghost use Rattle.table.specs.Pass.{try_pass};
ghost use Rattle.table.specs.Checks.{head_pass, outside as is_outside};

use table::read::{actions, threads};
use table::{Refusal, outside};

fn out_of_range(n: usize, m: usize) -> bool
    ensures { result ≡ (is_outside 1 1024 n || is_outside 1 8192 m) }
{
    outside(1, 1024, n) || outside(1, 8192, m)
}

pub(crate) fn head(table: &[u8]) -> Result<(), Refusal>
    ensures { result ≡ try_pass (head_pass table.now) }
{
    if table.len() < 4 {
        return Err(Refusal::new(1, 0));
    }
    let n = threads(table);
    let m = actions(table);
    if out_of_range(n, m) {
        return Err(Refusal::new(2, 0));
    }
    if table.len() != 4 + 4 * n + 4 * m {
        return Err(Refusal::new(3, 0));
    }
    Ok(())
}
