// The line of a run in rounds.
ghost use Rattle.std.specs.Prelude.{[], ◌∷◌};
ghost use Rattle.text.specs.Text.{decimal, newline};
ghost use Rattle.lines.specs.Lines.{held_word, report_texts};
ghost use Rattle.listing.specs.Listing.{rounded_texts};
ghost use Rattle.text.specs.Puts.{Puts};

use lines::{put_answer, put_totals};
use schedule::{Report, Run};
use text::{put_labelled, put_word};

// Memory held, and the line's end.
fn put_held(out: &mut [u8], at: usize, held: u64) -> usize
    ensures { Puts out.old at out.new result (held_word ∷ decimal held ∷ newline ∷ []) 27 }
{
    let at = put_labelled(out, at, b" held ", held);
    put_word(out, at, b"\n")
}

fn put_report(out: &mut [u8], report: Report, run: Run) -> usize
    ensures { Puts out.old 0 out.new result (report_texts report run) 96 }
{
    match report {
        Report::Finished(turns) => {
            let at = put_totals(out, 0, b"finished ", turns, run.highest);
            put_held(out, at, run.held)
        }
        Report::Spent(turns) => {
            let at = put_totals(out, 0, b"spent ", turns, run.highest);
            put_held(out, at, run.held)
        }
        Report::Refused(_, refusal) => put_answer(out, 0, Err(refusal)),
    }
}

// The checks of the beginning, the table's among them, and the run.
pub(crate) fn put_rounds(table: &[u8], p: u8, quota: u32, limit: u32, out: &mut [u8]) -> usize
    ensures { Puts out.old 0 out.new result (rounded_texts table.now p quota limit) 96 }
{
    let begun = asyncdf::begin(table, p, quota);
    let answer = begun.answer;
    if let Err(refusal) = answer {
        return put_answer(out, 0, Err(refusal));
    }
    let run = begun.run;
    let ran = asyncdf::run_rounds(run, limit);
    let report = ran.report;
    let after = ran.run;
    put_report(out, report, after)
}
