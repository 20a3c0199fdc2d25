// The listing of a run over an order: the header, a line for each turn, the last line; and its chart.
ghost use Rattle.std.specs.Prelude.{◌+◌, ◌*◌, [], ◌∷◌, length};
ghost use Rattle.table.specs.Load.{loaded as loaded_of};
ghost use Rattle.text.specs.Text.{line_of};
ghost use Rattle.schedule.specs.Turn.{turned as turned_of};
ghost use Rattle.chart.specs.Chart.{charted};
ghost use Rattle.listing.specs.Listing.{listed_by, walled_by};
ghost use Rattle.text.specs.Puts.{Puts};

use crate::{chart_turns, list_turns};
use lines::put_answer;

// The header: the facts of a table.
pub fn put_header(table: &[u8], out: &mut [u8]) -> usize
    ensures { Puts out.old 0 out.new result (line_of (loaded_of table.now) ∷ []) 64 }
{
    let loaded = facts::load(table);
    put_answer(out, 0, loaded)
}

// The checks of the beginning, the table's among them, and the turns.
pub(crate) fn put_listing(table: &[u8], p: u8, quota: u32, order: &[u8], out: &mut [u8]) -> usize
    ensures { Puts out.old 0 out.new result (listed_by turned_of table.now p quota order.now) (64 * (length order.now + 2)) }
{
    let begun = asyncdf::begin(table, p, quota);
    let answer = begun.answer;
    if let Err(refusal) = answer {
        return put_answer(out, 0, Err(refusal));
    }
    let run = begun.run;
    let length = run.length as usize;
    let bytes = run.table;
    let at = put_header(&bytes[..length], out);
    list_turns(run, order, out, at)
}

// The checks of the beginning, the table's among them, and the chart.
pub(crate) fn put_chart(table: &[u8], p: u8, quota: u32, order: &[u8], out: &mut [u8]) -> usize
    ensures { Puts out.old 0 out.new result (walled_by charted turned_of table.now p quota order.now) (85 * (length order.now + 2)) }
{
    let begun = asyncdf::begin(table, p, quota);
    let answer = begun.answer;
    if let Err(refusal) = answer {
        return put_answer(out, 0, Err(refusal));
    }
    let run = begun.run;
    chart_turns(run, order, out, 0)
}
