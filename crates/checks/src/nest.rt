// Checks 8, 9 and 11: every thread but the root is forked once, and joins close forks, the latest first.
ghost use Rattle.std.specs.Prelude.{◌≡◌, ℕ, pred, ◌≤◌, ◌∷◌, [], false, get_or, replicate, Ok};
ghost use Rattle.table.specs.Format.{table_of};
ghost use Rattle.table.specs.Pass.{try_pass, try_from, or_else};
ghost use Rattle.table.specs.Checks.{second_pass, forked_pass, forked_below};
ghost use Rattle.table.specs.Code.Steps.{Formed};
ghost use Rattle.checks.specs.Code.Steps.{NestReady, NestDone, broken, top_after, unmarked};

use table::Refusal;
use table::kinds::Kind;
use table::read::{action_in, bodies};

// One action. The open children stand in `stack` from `top` on, the latest first; `forked` marks the threads forked so far. Answers where the stack then begins, or the check that the action
// breaks.
fn nest_at(
    kind: Kind,
    x: usize,
    top: usize,
    stack: &mut [u64; 1024],
    forked: &mut [bool; 1024],
) -> Result<usize, u8>
    requires { NestReady kind x top stack.old forked.old }
    ensures { NestDone kind x top stack.old forked.old (broken result) (top_after top result) stack.new forked.new }
{
    match kind {
        Kind::End => {
            if top < 1024 {
                return Err(9);
            }
            Ok(top)
        }
        Kind::Fork => {
            if forked[x] {
                return Err(8);
            }
            forked[x] = true;
            stack[top - 1] = x as u64;
            Ok(top - 1)
        }
        Kind::Join => {
            if top == 1024 {
                return Err(9);
            }
            if stack[top] != x as u64 {
                return Err(9);
            }
            Ok(top + 1)
        }
        _ => Ok(top),
    }
}

fn second_pass(
    table: &[u8],
    n: usize,
    m: usize,
    stack: &mut [u64; 1024],
    forked: &mut [bool; 1024],
) -> Result<(), Refusal>
    requires formed { Formed table.now n m }
    requires forked_value { forked.old ≡ replicate 1024 false }
    ensures value { result ≡ try_pass (second_pass (table_of table.now)) }
    ensures false_after { result ≡ Ok tt → (t : ℕ) → get_or forked.new t false ≡ forked_below (table_of table.now) m t }
{
    let actions = bodies(table, n);
    // m, in a form by which the compiler knows that every action is there
    let stop = m.min(actions.len() / 4);
    *stack = [0; 1024];
    let mut top = 1024;
    for a in 0..stop {
        let action = action_in(actions, a);
        let next = nest_at(action.kind(), action.argument, top, stack, forked);
        top = match next {
            Err(number) => return Err(Refusal::new(number, a as u16)),
            Ok(after) => after,
        };
    }
    Ok(())
}

// The lowest thread other than 0 that is not marked.
fn never_forked(n: usize, forked: &[bool; 1024]) -> Result<(), Refusal>
    requires { n ≤ 1024 }
    ensures { result ≡ try_from (unmarked forked.now ∷ []) 1 (pred n) }
{
    for t in 1..n {
        if !forked[t] {
            return Err(Refusal::new(11, t as u16));
        }
    }
    Ok(())
}

// The open children are kept in `stack`, whatever it held.
pub(crate) fn nesting(
    table: &[u8],
    n: usize,
    m: usize,
    stack: &mut [u64; 1024],
) -> Result<(), Refusal>
    requires { Formed table.now n m }
    ensures { result ≡ or_else (try_pass (second_pass (table_of table.now))) (try_pass (forked_pass (table_of table.now))) }
{
    let mut forked = [false; 1024];
    second_pass(table, n, m, stack, &mut forked)?;
    never_forked(n, &forked)
}
