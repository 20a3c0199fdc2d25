// A pace beside a run, as C calls it: a turn that the pace does not let through is refused, and one that is taken is counted (specs/Paced). Each call answers any input whatever. In an archive of
// its own, so that a board without a pace pays nothing for it. include/wivakkol_pace.h has the prototypes.
#![tactic(auto)]

ghost use Rattle.std.specs.Prelude.{◌≡◌, ℕ, ◌&&◌, eqb, Err};
ghost use Rattle.table.specs.Sum.{pick};
ghost use Rattle.run_memory.specs.Memory.{told, number_in, reply_in, passed_in, passed_over, answer};
ghost use Rattle.run_memory.specs.Blocks.{memory_of};
ghost use Rattle.pace.specs.Pace.{paced, start_pace, kept_in, may_number, took_number};
ghost use Rattle.wivakkol_pace.specs.Paced.{held_after, paced_told, paced_in, kept, paced_turn};

use pace::{hinders, took};
use run_memory::places::{TURNS, WORKERS, setting_at, status_at, total_at};
use run_memory::replies::put_reply;
use run_memory::{hindrance, turn_in};
use schedule::Taken;

pub mod runs;

// Whether the pace holds back a turn of worker w, and with which number; what hinders it otherwise says so first.
fn stops(hindered: Result<(), u32>, pace: &[u32; 260], w: u32) -> Result<(), u32>
    ensures { result ≡ held_after hindered pace.now w }
{
    if hindered.is_err() {
        return Ok(());
    }
    match hinders(pace, w) {
        0 => Ok(()),
        number => Err(number),
    }
}

// A turn of worker w of the run, counted; or the number with which the pace holds it back, and then nothing of the run or the pace is written. A run that is over, or that has no such worker, says
// so first.
// It is the archive's one place with the turn's code, so that the compiler puts the whole turn into one frame;
// what C hands over on the stack comes first, so that it is read into registers.
pub(crate) fn paced_in(
    table: &[u8],
    w: u32,
    counting: bool,
    sums: &mut [u64; 1027],
    pace: &mut [u32; 260],
    bytes: &mut [u8; 1040],
    words: &mut [u16; 6163],
    numbers: &mut [u32; 18],
) -> Result<Taken, u32>
    ensures pace_after { paced_told (told (number_in result) (reply_in result) (memory_of bytes.new words.new numbers.new sums.new)) pace.new
        ≡ paced_in table.now w (memory_of bytes.old words.old numbers.old sums.old) pace.old }
    ensures nonzero { (n : ℕ) → result ≡ Err n → n ≡ 0 → ⊥ }
    ensures passed_value { passed_in result ≡ pick (counting && eqb (number_in result) 0) (passed_over (memory_of bytes.old words.old numbers.old sums.old) w) 0 }
{
    let hindered = hindrance(
        total_at(&*sums, TURNS),
        setting_at(&*numbers, WORKERS),
        w,
        status_at(&*bytes, 0),
    );
    stops(hindered, &*pace, w)?;
    let taken = turn_in(table, w, counting, bytes, words, numbers, sums)?;
    took(pace, w);
    Ok(taken)
}

// The paced turn, with how many threads stood left of one that it took. Every number of the row is written.
pub fn wivakkol_paced_turn_on(
    table: &[u8],
    w: u32,
    bytes: &mut [u8; 1040],
    words: &mut [u16; 6163],
    numbers: &mut [u32; 18],
    sums: &mut [u64; 1027],
    pace: &mut [u32; 260],
    row: &mut [u64; 5],
) -> u32
    ensures { kept (answer result row.new (memory_of bytes.new words.new numbers.new sums.new)) pace.new
        ≡ paced_turn table.now w (memory_of bytes.old words.old numbers.old sums.old) pace.old }
{
    match paced_in(table, w, true, sums, pace, bytes, words, numbers) {
        Ok(taken) => {
            put_reply(row, taken.reply, taken.passed);
            0
        }
        Err(number) => {
            *row = [0; 5];
            number
        }
    }
}

// ---- the pace alone

// Begins a pace for p workers and b: 0, or 20 where p is not 1 to 16, 41 where b is not 1 to 65,535; then nothing is written.
pub fn wivakkol_pace_begin_on(p: u32, b: u32, pace: &mut [u32; 260]) -> u32
    ensures { paced result pace.new ≡ start_pace p b pace.old }
{
    pace::start(p, b, pace)
}

// May worker w have the next turn, as far as the pace is concerned? 0; 30 where it is not below the pace's p; 60.
pub fn wivakkol_may_on(pace: &[u32; 260], w: u32) -> u32
    ensures { result ≡ may_number pace.now w }
{
    hinders(pace, w)
}

// The least b that the turns counted so far keep.
pub fn wivakkol_kept_on(pace: &[u32; 260]) -> u32
    ensures { result ≡ kept_in pace.now }
{
    pace::kept(pace)
}

// Worker w has had a turn that was not taken through the pace: 0, or 30 where it is not below the pace's p, and then nothing is written.
pub fn wivakkol_took_on(pace: &mut [u32; 260], w: u32) -> u32
    ensures { paced result pace.new ≡ took_number pace.old w }
{
    pace::note(pace, w)
}
