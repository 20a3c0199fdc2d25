// A line of the front: what the lines so far have given, and what one line more does.
ghost use Rattle.std.specs.Prelude.{take};
ghost use Rattle.assembly.specs.Words.{words_in, words_of};
ghost use Rattle.inputs.specs.Number.{figure_of};
ghost use Rattle.inputs.specs.Front.{most8, most24, most32, most64, workers, quota, between, rounds, board, given_to, order_from, ordered_to, step_with, step_of};
ghost use Rattle.inputs.specs.Code.Steps.{Room, Plainly, Stepping, front_is, held_by};

use crate::Wanted;
use crate::number::read_figure;
use crate::order::order_line;
use assembly::scan::{Class, span};
use assembly::word::{first_word, same};

// p; p and K; p and b; then p, K and the count of an order, p, K and L, or p, b and M.
#[derive(Drop)]
pub(crate) enum Front {
    Nothing,
    Workers(u64),
    Quota(u64, u64),
    Between(u64, u64),
    Turns(u64, u64, usize),
    Rounds(u64, u64, u64),
    Board(u64, u64, u64),
}

// A line is taken, or belongs to the table.
#[derive(Drop)]
pub(crate) enum Step {
    Goes(Front),
    Ends(Front),
}

// The line of p.
fn workers_line(rest: &[u8]) -> Result<Step, Wanted>
    ensures { Plainly result (given_to workers (figure_of most8 (words_in rest.now))) }
{
    let p = read_figure(rest, 255)?;
    Ok(Step::Goes(Front::Workers(p)))
}

// Of K.
fn quota_line(p: u64, rest: &[u8]) -> Result<Step, Wanted>
    ensures { Plainly result (given_to (quota p) (figure_of most24 (words_in rest.now))) }
{
    let k = read_figure(rest, 16777215)?;
    Ok(Step::Goes(Front::Quota(p, k)))
}

// Of b.
fn between_line(p: u64, rest: &[u8]) -> Result<Step, Wanted>
    ensures { Plainly result (given_to (between p) (figure_of most32 (words_in rest.now))) }
{
    let b = read_figure(rest, 4294967295)?;
    Ok(Step::Goes(Front::Between(p, b)))
}

// Of L.
fn limit_line(p: u64, k: u64, rest: &[u8]) -> Result<Step, Wanted>
    ensures { Plainly result (given_to (rounds p k) (figure_of most32 (words_in rest.now))) }
{
    let l = read_figure(rest, 4294967295)?;
    Ok(Step::Goes(Front::Rounds(p, k, l)))
}

// Of M.
fn memory_line(p: u64, b: u64, rest: &[u8]) -> Result<Step, Wanted>
    ensures { Plainly result (given_to (board p b) (figure_of most64 (words_in rest.now))) }
{
    let m = read_figure(rest, 18446744073709551615)?;
    Ok(Step::Goes(Front::Board(p, b, m)))
}

// Of an order, which has n workers already.
fn turns_line(p: u64, k: u64, n: usize, rest: &[u8], order: &mut [u8]) -> Result<Step, Wanted>
    requires { Room order.old n }
    ensures { Stepping result order.new (ordered_to p k (order_from (take n order.old) (words_in rest.now))) }
{
    let j = order_line(rest, order, n)?;
    Ok(Step::Goes(Front::Turns(p, k, j)))
}

// After the line of p: K, or b.
fn after_workers(p: u64, w: &[u8], rest: &[u8]) -> Result<Step, Wanted>
    ensures { Plainly result (step_with (workers p) w.now (words_in rest.now)) }
{
    if same(w, b"quota") {
        return quota_line(p, rest);
    }
    if same(w, b"between") {
        return between_line(p, rest);
    }
    Err(Wanted::QuotaOrBetween)
}

// After the line of K: an order, or L.
fn after_quota(p: u64, k: u64, w: &[u8], rest: &[u8], order: &mut [u8]) -> Result<Step, Wanted>
    requires { Room order.old 0 }
    ensures { Stepping result order.new (step_with (quota p k) w.now (words_in rest.now)) }
{
    if same(w, b"order") {
        return turns_line(p, k, 0, rest, order);
    }
    if same(w, b"limit") {
        return limit_line(p, k, rest);
    }
    Err(Wanted::OrderOrLimit)
}

// A line's first word, and what stands after it.
fn after(front: Front, w: &[u8], rest: &[u8], order: &mut [u8]) -> Result<Step, Wanted>
    requires { Room order.old (held_by front) }
    ensures { Stepping result order.new (step_with (front_is front order.old) w.now (words_in rest.now)) }
{
    match front {
        Front::Nothing => {
            if same(w, b"workers") {
                return workers_line(rest);
            }
            Err(Wanted::Workers)
        }
        Front::Workers(p) => after_workers(p, w, rest),
        Front::Quota(p, k) => after_quota(p, k, w, rest, order),
        Front::Between(p, b) => {
            if same(w, b"memory") {
                return memory_line(p, b, rest);
            }
            Err(Wanted::Memory)
        }
        Front::Turns(p, k, n) => {
            if same(w, b"order") {
                return turns_line(p, k, n, rest, order);
            }
            Ok(Step::Ends(front))
        }
        Front::Rounds(_, _, _) => Ok(Step::Ends(front)),
        Front::Board(_, _, _) => Ok(Step::Ends(front)),
    }
}

// A line without its newline; one without words changes nothing.
pub(crate) fn take_line(front: Front, line: &[u8], order: &mut [u8]) -> Result<Step, Wanted>
    requires { Room order.old (held_by front) }
    ensures { Stepping result order.new (step_of (front_is front order.old) (words_of line.now)) }
{
    let plain = span(line, Class::Plain);
    let s = &line[..plain];
    let word = first_word(s);
    let start = word.start;
    let end = word.end;
    if start == end {
        return Ok(Step::Goes(front));
    }
    after(front, &s[start..end], &s[end..], order)
}
