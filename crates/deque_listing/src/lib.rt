// What `dequelist` prints (N13), from the bytes that it reads to the bytes that it writes: the listing of a run of DFDeques, its input and its lines as `turnlist`'s.
#![tactic(auto)]

mod turns;

ghost use Rattle.std.specs.Prelude.{◌≡◌, ◌++◌, ◌+◌, ◌*◌, ◌/◌, length, drop};
ghost use Rattle.io.specs.Counts.{IsPrefixLen};
ghost use Rattle.text.specs.Puts.{Puts};
ghost use Rattle.deques.specs.DequeTurn.{deque_turned};
ghost use Rattle.deque_listing.specs.DequeListing.{deque_listed_by, deque_listing_of, input_texts};

use lines::put_answer;
use listing::{input_wrong, put_header, put_wrong};
use table::front::three_bytes;
use table::read::{byte, word};
use turns::list_pairs;

// The checks of the beginning, the table's among them, and the turns.
fn put_listing(table: &[u8], p: u8, quota: u32, order: &[u8], out: &mut [u8]) -> usize
    ensures { Puts out.old 0 out.new result (deque_listed_by deque_turned table.now p quota order.now) (64 * (length order.now / 2 + 2)) }
{
    let begun = dfdeques::deque_begin(table, p, quota);
    let answer = begun.answer;
    if let Err(refusal) = answer {
        return put_answer(out, 0, Err(refusal));
    }
    let run = begun.run;
    let record = run.run;
    let length = record.length as usize;
    let bytes = record.table;
    let at = put_header(&bytes[..length], out);
    list_pairs(run, order, out, at)
}

fn put_text(input: &[u8], out: &mut [u8]) -> usize
    ensures { Puts out.old 0 out.new result (input_texts input.now) 131200 }
{
    if input_wrong(input) {
        return put_wrong(out);
    }
    let end = 6 + word(input, 4);
    let table = &input[end..];
    let order = &input[6..end];
    let p = byte(input, 0);
    let quota = three_bytes(input, 1);
    put_listing(table, p, quota, order, out)
}

// The listing of a run over an order of two bytes a turn, and its length.
pub fn deque_listing(input: &[u8], out: &mut [u8; 131200]) -> usize
    ensures value { result ≡ length (deque_listing_of input.now) }
    ensures out_after { out.new ≡ deque_listing_of input.now ++ drop result out.old }
    ensures prefix_len { IsPrefixLen result out.new }
{
    put_text(input, out)
}
