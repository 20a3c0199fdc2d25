// What a worker would do now: a turn shown before it is taken.
#![tactic(auto)]

ghost use Rattle.std.specs.Prelude.{◌≡◌};
ghost use Rattle.run_memory.specs.Packing.{memory_for};
ghost use Rattle.run_memory.specs.Preview.{foreseen_in};
ghost use Rattle.schedule.specs.Record.{bytes_of};
ghost use Rattle.schedule.specs.Sound.{Steady};
ghost use Rattle.schedule.specs.Shown.{preview_values};
ghost use Rattle.preview.specs.Preview.{preview_of, shown_values};

use run_memory::packing::pack;
use run_memory::preview::{Foreseen, preview_in};
use schedule::Run;
use soundness::test;
use table::Refusal;

// The turn of worker w on the blocks into which the record is copied: the record itself is unaltered.
fn foresee(run: Run, parents: &[u16; 1024], w: u8) -> Result<Foreseen, u32>
    requires { Steady run }
    ensures { result ≡ foreseen_in (bytes_of run) w (memory_for run parents.now) }
{
    let all = run.table;
    let length = run.length as usize;
    let table = &all[..length];
    let mut bytes = [0u8; 1040];
    let mut words = [0u16; 6163];
    let mut numbers = [0u32; 18];
    let mut sums = [0u64; 1027];
    pack(
        run,
        parents,
        &mut bytes,
        &mut words,
        &mut numbers,
        &mut sums,
    );
    preview_in(table, w as u32, &bytes, &words, &numbers, &sums)
}

// The turn of worker w, or its refusal.
pub fn preview(run: Run, w: u8) -> Result<Foreseen, Refusal>
    ensures value { result ≡ preview_of run w }
    ensures result_value { shown_values result ≡ preview_values run w }
{
    let Some(parents) = test(run) else {
        return Err(Refusal::new(32, 0));
    };
    // the blank record
    if run.workers == 0 {
        return Err(Refusal::new(30, 0));
    }
    match foresee(run, &parents, w) {
        Ok(foreseen) => Ok(foreseen),
        Err(number) => Err(Refusal::new(number as u8, 0)),
    }
}
