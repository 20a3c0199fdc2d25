// What `turnlist`, `wallchart` and `runrounds` print, from the bytes that they read to the bytes that they write; the lines of a listing and of a chart of any record.
#![tactic(auto)]

mod input;
mod rounds;
mod sheets;
mod turns;

ghost use Rattle.std.specs.Prelude.{◌≡◌, ◌++◌, length, drop, ◌+◌, ◌*◌};
ghost use Rattle.io.specs.Counts.{IsPrefixLen};
ghost use Rattle.schedule.specs.Listing.{list_turns};
ghost use Rattle.lines.specs.Lines.{texts_of};
ghost use Rattle.chart.specs.Turns.{chart_turns};
ghost use Rattle.listing.specs.Sheets.{widest};
ghost use Rattle.text.specs.Puts.{Puts};
ghost use Rattle.listing.specs.Listing.{listing_of, wall_of, printed_texts, rounds_of};

use chart::{MOST_TURNS, put_line};
pub use input::{input_wrong, put_wrong};
use lines::put_refused;
use rounds::put_rounds;
use schedule::Run;
pub use sheets::put_header;
use sheets::{put_chart, put_listing};
use soundness::test;
use table::front::{four_bytes, three_bytes};
use table::read::{byte, word};
use turns::put_turns;
pub use turns::{put_end, put_step};

// The text of an order and a table, a chart or a listing.
fn put_text(chart: bool, input: &[u8], out: &mut [u8]) -> usize
    ensures { Puts out.old 0 out.new result (printed_texts chart input.now) (widest chart * 4098) }
{
    if input_wrong(input) {
        return put_wrong(out);
    }
    let end = 6 + word(input, 4);
    let table = &input[end..];
    let order = &input[6..end];
    let p = byte(input, 0);
    let quota = three_bytes(input, 1);
    if chart {
        return put_chart(table, p, quota, order, out);
    }
    put_listing(table, p, quota, order, out)
}

// The listing of a run over an order, and its length.
pub fn turn_listing(input: &[u8], out: &mut [u8; 262400]) -> usize
    ensures value { result ≡ length (listing_of input.now) }
    ensures out_after { out.new ≡ listing_of input.now ++ drop result out.old }
    ensures prefix_len { IsPrefixLen result out.new }
{
    put_text(false, input, out)
}

// The wall chart of a run over an order, and its length.
pub fn wall_chart(input: &[u8], out: &mut [u8; 348330]) -> usize
    ensures value { result ≡ length (wall_of input.now) }
    ensures out_after { out.new ≡ wall_of input.now ++ drop result out.old }
    ensures prefix_len { IsPrefixLen result out.new }
{
    put_text(true, input, out)
}

// The line of a run in rounds, and its length.
pub fn rounds_line(input: &[u8], out: &mut [u8; 96]) -> usize
    ensures value { result ≡ length (rounds_of input.now) }
    ensures out_after { out.new ≡ rounds_of input.now ++ drop result out.old }
    ensures prefix_len { IsPrefixLen result out.new }
{
    if input.len() < 8 {
        return put_wrong(out);
    }
    put_rounds(
        &input[8..],
        byte(input, 0),
        three_bytes(input, 1),
        four_bytes(input, 4),
        out,
    )
}

// The lines of the turns of an order's workers, up to the root's end, a refusal or the order's end, and the last line. A text that does not fit is left out; 64 bytes for each of the order
// and 64 more are enough.
pub fn list_turns(run: Run, order: &[u8], out: &mut [u8], at: usize) -> usize
    ensures { Puts out.old at out.new result (texts_of (list_turns run order.now)) (64 * (length order.now + 1)) }
{
    let Some(parents) = test(run) else {
        return put_refused(out, at, 32);
    };
    put_turns(false, run, &parents, order, out, at)
}

// The chart's line of a record and those after each turn of an order's workers, up to the root's end, a refusal or the order's end. A text that does not fit is left out; 85 bytes for
// each of the order and for two lines more are enough.
pub fn chart_turns(run: Run, order: &[u8], out: &mut [u8], at: usize) -> usize
    ensures { Puts out.old at out.new result (chart_turns run order.now) (85 * (length order.now + 2)) }
{
    let Some(parents) = test(run) else {
        return put_refused(out, at, 32);
    };
    if MOST_TURNS < run.turns {
        return put_refused(out, at, 43);
    }
    let workers = run.worker;
    let at = put_line(out, at, run.turns, run.workers, workers, run.held);
    put_turns(true, run, &parents, order, out, at)
}
