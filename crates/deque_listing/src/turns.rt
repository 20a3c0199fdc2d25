// The lines of an order's turns: the loop of a run, with a line put after each turn and no record at its end.
ghost use Rattle.std.specs.Prelude.{◌+◌, ◌*◌, ◌/◌, length};
ghost use Rattle.text.specs.Puts.{Puts};
ghost use Rattle.schedule.specs.Parents.{Parents};
ghost use Rattle.schedule.specs.Record.{table_in};
ghost use Rattle.run_memory.specs.Blocks.{memory_of};
ghost use Rattle.deques.specs.DequeSound.{SoundDeques};
ghost use Rattle.stealing.specs.StealingMemory.{deque_run_in, DequesStand};
ghost use Rattle.lines.specs.Lines.{texts_of};
ghost use Rattle.deque_listing.specs.DequeListing.{list_pairs, rest_texts};

use deques::DequeRun;
use dfdeques::packing::pack_deques;
use dfdeques::testing::deque_test;
use lines::{put_last, put_refused};
use listing::{put_end, put_step};
use run_memory::places::status_at;
use schedule::statuses::ENDED;
use stealing::deque_turn_in;

// The turns of an order, from a record that stands in the blocks.
fn put_each(
    table: &[u8],
    order: &[u8],
    bytes: &mut [u8; 1040],
    words: &mut [u16; 6163],
    numbers: &mut [u32; 18],
    sums: &mut [u64; 1027],
    out: &mut [u8],
    at: usize,
) -> usize
    requires { DequesStand table.now (memory_of bytes.old words.old numbers.old sums.old) }
    ensures { Puts out.old at out.new result
        (rest_texts order.now (length order.now / 2) 0
        (deque_run_in table.now (memory_of bytes.old words.old numbers.old sums.old)))
        (64 * (length order.now / 2 + 1)) }
{
    let turns = order.len() / 2;
    let mut at = at;
    for i in 0..turns {
        if status_at(&*bytes, 0) == ENDED {
            return put_end(false, out, at, true, &*sums);
        }
        let w = order[2 * i];
        let c = order[2 * i + 1];
        let reply = match deque_turn_in(table, w as u32, c as u32, bytes, words, numbers, sums) {
            Err(number) => return put_refused(out, at, number as u8),
            Ok(reply) => reply,
        };
        at = put_step(table, &*words, &*sums, out, at, w, reply);
    }
    let ended = status_at(&*bytes, 0) == ENDED;
    put_end(false, out, at, ended, &*sums)
}

// The turns of an order, from a record by value and each thread's parent.
fn put_run(run: DequeRun, parents: &[u16; 1024], order: &[u8], out: &mut [u8], at: usize) -> usize
    requires sound_deques { SoundDeques run }
    requires parents { Parents (table_in run.run) parents.now }
    ensures { Puts out.old at out.new result (rest_texts order.now (length order.now / 2) 0 run) (64 * (length order.now / 2 + 1)) }
{
    let record = run.run;
    let length = record.length as usize;
    let table = record.table;
    let table = &table[..length];
    let mut bytes = [0u8; 1040];
    let mut words = [0u16; 6163];
    let mut numbers = [0u32; 18];
    let mut sums = [0u64; 1027];
    pack_deques(
        run,
        parents,
        &mut bytes,
        &mut words,
        &mut numbers,
        &mut sums,
    );
    put_each(
        table,
        order,
        &mut bytes,
        &mut words,
        &mut numbers,
        &mut sums,
        out,
        at,
    )
}

// The lines of the turns of an order, two bytes a turn, up to the root's end, a refusal or the order's end, and the last line. A text that does not fit is left out; 64 bytes for each turn and
// 64 more are enough.
pub(crate) fn list_pairs(run: DequeRun, order: &[u8], out: &mut [u8], at: usize) -> usize
    ensures { Puts out.old at out.new result (texts_of (list_pairs run order.now)) (64 * (length order.now / 2 + 1)) }
{
    let Some(parents) = deque_test(run) else {
        return put_refused(out, at, 32);
    };
    let record = run.run;
    if record.workers == 0 {
        if order.len() < 2 {
            return put_last(out, at, false, record.turns, record.highest);
        }
        return put_refused(out, at, 30);
    }
    put_run(run, &parents, order, out, at)
}
