// The checks that accept a table or refuse it by number and place, in document 01's order.
#![tactic(auto)]

mod balance;
mod contents;
mod forms;
mod head;
mod nest;

ghost use Rattle.std.specs.Prelude.{◌≡◌, replicate};
ghost use Rattle.table.specs.Format.{table_of};
ghost use Rattle.table.specs.Pass.{first_found};
ghost use Rattle.table.specs.Checks.{passes, shape_passes};
ghost use Rattle.table.specs.Code.Steps.{Headed};

use balance::balances;
use contents::contents;
use forms::first_pass;
use head::head;
use nest::nesting;
use table::Refusal;
use table::read::{actions, threads};

// Of any bytes: the check that refuses them, if one does.
pub fn check(table: &[u8]) -> Result<(), Refusal>
    ensures { result ≡ first_found (passes table.now) }
{
    let mut rises = [0u64; 1024];
    let mut falls = [0u64; 1024];
    check_in(table, &mut rises, &mut falls)
}

// The same in lent working memory, which may hold anything and is left cleared.
pub fn check_in(
    table: &[u8],
    rises: &mut [u64; 1024],
    falls: &mut [u64; 1024],
) -> Result<(), Refusal>
    ensures value { result ≡ first_found (passes table.now) }
    ensures rises_after { (rises.new ≡ replicate 1024 0) × (falls.new ≡ replicate 1024 0) }
{
    let found = all_checks(table, rises, falls);
    *rises = [0; 1024];
    *falls = [0; 1024];
    found
}

// Checks 1 to 11, the working memory left as they used it.
fn all_checks(table: &[u8], rises: &mut [u64; 1024], falls: &mut [u64; 1024]) -> Result<(), Refusal>
    ensures { result ≡ first_found (passes table.now) }
{
    head(table)?;
    let n = threads(table);
    let m = actions(table);
    shape(table, n, m, rises)?;
    balances(table, n, m, rises, falls)
}

// Checks 4 to 9 and 11, the open children kept in `stack`.
fn shape(table: &[u8], n: usize, m: usize, stack: &mut [u64; 1024]) -> Result<(), Refusal>
    requires { Headed table.now n m }
    ensures { result ≡ first_found (shape_passes (table_of table.now)) }
{
    contents(table, n, m)?;
    first_pass(table, n, m)?;
    nesting(table, n, m, stack)
}
