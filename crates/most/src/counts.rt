// m + A + J: of a table as given, and from it of the table filled out, without building that.
ghost use Rattle.std.specs.Prelude.{◌≡◌, ◌+◌, ◌-◌};
ghost use Rattle.table.specs.Format.{table_of};
ghost use Rattle.table.specs.Sum.{Read};
ghost use Rattle.order.specs.Turns.{turns_of};
ghost use Rattle.most.specs.Code.Steps.{turns_at, Counted};

use filling::Total;
use table::kinds::Kind;
use table::read;

// What action a counts: 1, and 1 more if it is an alloc or a join.
fn turns_at(table: &[u8], n: usize, a: usize) -> usize
    requires { n ≡ (table_of table.now).threads }
    ensures { Read (turns_at (table_of table.now) a) 3 result }
{
    match read::kind(table, n, a) {
        Kind::Alloc => 2,
        Kind::Join => 2,
        _ => 1,
    }
}

// m + A + J of the table as given.
fn given_turns(table: &[u8], n: usize, m: usize) -> usize
    requires n_value { n ≡ (table_of table.now).threads }
    requires read { Read (table_of table.now).actions 65536 m }
    ensures { Read (turns_of (table_of table.now)) 131072 result }
{
    let mut turns = 0;
    for a in 0..m {
        turns += turns_at(table, n, a);
    }
    turns
}

// m + A + J of the table that runs, of so many threads and actions in total: each new action counts 1, and each new thread is joined once.
pub(crate) fn turns_of(table: &[u8], total: Total) -> u32
    requires { Counted (table_of table.now) total.threads total.actions }
    ensures { Read (turns_of (table_of table.now) + (total.threads - (table_of table.now).threads) + (total.actions - (table_of table.now).actions)) 150000 result }
{
    let n = read::threads(table);
    let m = read::actions(table);
    (given_turns(table, n, m) + (total.threads - n) + (total.actions - m)) as u32
}
