// The workers of an order, a byte each, in a lent buffer.
ghost use Rattle.std.specs.Prelude.{take};
ghost use Rattle.assembly.specs.Words.{words_in};
ghost use Rattle.inputs.specs.Front.{added, order_from};
ghost use Rattle.inputs.specs.Code.Steps.{Room, Ordering};

use crate::Wanted;
use assembly::word::{first_word, read_number};

// One worker more, after n.
fn add_worker(w: &[u8], order: &mut [u8], n: usize) -> Result<usize, Wanted>
    requires { Room order.old n }
    ensures { Ordering result order.new (added (take n order.old) w.now) }
{
    if n == 4096 {
        return Err(Wanted::FewerWorkers);
    }
    let worker = read_number(w, 255);
    match worker {
        None => Err(Wanted::Number(255)),
        Some(x) => {
            order[n] = x as u8;
            Ok(n + 1)
        }
    }
}

// The workers on a line after `order`, after n: word by word, without an index that is counted. The order lies in a buffer with its count, since there is no heap.
pub(crate) fn order_line(rest: &[u8], order: &mut [u8], n: usize) -> Result<usize, Wanted>
    requires { Room order.old n }
    ensures { Ordering result order.new (order_from (take n order.old) (words_in rest.now)) }
{
    let mut n = n;
    let mut at = 0;
    while at < rest.len() {
        let part = &rest[at..];
        let word = first_word(part);
        let start = word.start;
        let end = word.end;
        if start == end {
            return Ok(n);
        }
        n = add_worker(&part[start..end], order, n)?;
        at += end;
    }
    Ok(n)
}
