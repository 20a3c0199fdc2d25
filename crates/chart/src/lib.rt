// The wall chart: a record's line, put into a lent buffer. Every call is total, and what it answers equals a definition.
#![tactic(auto)]

ghost use Rattle.std.specs.Prelude.{◌≡◌};
ghost use Rattle.chart.specs.Chart.{charted, charted_in, charted_values, line_values};

use schedule::Run;
use soundness::test;
use table::Refusal;

mod line;

pub use line::put_line;

// The most turns taken that a line shows.
pub const MOST_TURNS: u64 = 999_999;

// The line of a record that passes 32 and 43; on either the buffer is as it was.
pub fn wall_line(run: Run, out: &mut [u8; 85]) -> Result<(), Refusal>
    ensures value { result ≡ charted run }
    ensures result_value { charted_values result ≡ line_values run }
    ensures out_after { out.new ≡ charted_in (charted run) run out.old }
{
    let Some(_) = test(run) else {
        return Err(Refusal::new(32, 0));
    };
    if MOST_TURNS < run.turns {
        return Err(Refusal::new(43, 0));
    }
    let workers = run.worker;
    put_line(out, 0, run.turns, run.workers, workers, run.held);
    Ok(())
}
