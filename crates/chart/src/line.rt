// A line of the chart, put into a lent buffer from its numbers: turns taken, the workers, memory held.
ghost use Rattle.std.specs.Prelude.{◌≡◌, ◌≤◌};
ghost use Rattle.text.specs.Text.{buffer_at};
ghost use Rattle.text.specs.Puts.{put_all};
ghost use Rattle.chart.specs.Chart.{cell_of, cells_from, figures_of, right_texts, cell_texts, cells_texts, line_texts};

use schedule::Worker;
use text::{put_number, put_word};

// A number, right-aligned in a width.
fn put_right(out: &mut [u8], at: usize, width: usize, n: u64) -> usize
    requires { width ≤ 14 }
    ensures { buffer_at out.new result ≡ put_all (buffer_at out.old at) (right_texts width n) }
{
    let blanks = [32u8; 14];
    let mut digits = [0u8; 20];
    let k = put_number(&mut digits, 0, n);
    let pad = width.saturating_sub(k);
    let at = put_word(out, at, &blanks[..pad]);
    put_word(out, at, &digits[..k])
}

// The cell of worker w.
fn put_cell(out: &mut [u8], at: usize, p: usize, w: usize, worker: Worker) -> usize
    ensures { buffer_at out.new result ≡ put_all (buffer_at out.old at) (cell_texts (cell_of p w worker)) }
{
    if p <= w {
        return put_word(out, at, b"    ");
    }
    if worker.holds {
        put_right(out, at, 4, worker.thread as u64)
    } else {
        put_word(out, at, b"   .")
    }
}

fn put_cells(out: &mut [u8], at: usize, p: usize, workers: [Worker; 16]) -> usize
    ensures { buffer_at out.new result ≡ put_all (buffer_at out.old at) (cells_texts (cells_from p 0 workers)) }
{
    let mut at = at;
    for (w, worker) in workers.iter().enumerate() {
        at = put_cell(out, at, p, w, *worker);
    }
    at
}

// A whole line.
pub fn put_line(
    out: &mut [u8],
    at: usize,
    turns: u64,
    p: u8,
    workers: [Worker; 16],
    held: u64,
) -> usize
    ensures { buffer_at out.new result ≡ put_all (buffer_at out.old at) (line_texts (figures_of turns p workers held)) }
{
    let at = put_right(out, at, 6, turns);
    let at = put_cells(out, at, p as usize, workers);
    let at = put_right(out, at, 14, held);
    put_word(out, at, b"\n")
}
