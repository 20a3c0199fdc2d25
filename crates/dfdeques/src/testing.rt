// Check 32 of a record of DFDeques by value: the copy of the table in the record, then the parts.
ghost use Rattle.std.specs.Prelude.{◌≡◌, None, Some};
ghost use Rattle.table.specs.Sum.{pick};
ghost use Rattle.schedule.specs.Record.{table_in};
ghost use Rattle.soundness.specs.Tested.{parents_in};
ghost use Rattle.deques.specs.DequeSound.{deque_sound, is_blank_deques};
ghost use Rattle.dfdeques.specs.DequePacking.{deques_tested};

use deques::DequeRun;
use dequetest::{deque_blank_in, deque_test_in};
use soundness::{bytes_rest, copy_sound};

fn sound(run: DequeRun) -> Option<[u16; 1024]>
    ensures { result ≡ pick (deque_sound run) (Some (parents_in (table_in run.run))) None }
{
    let record = run.run;
    if !copy_sound(record) {
        return None;
    }
    let length = record.length as usize;
    let table = record.table;
    let bytes = &table[..length];
    let next = record.next;
    let status = record.status;
    let amounts = record.amounts;
    let left = record.left;
    let right = record.right;
    let under = run.under;
    let over = run.over;
    let workers = record.worker;
    let mut rises = [0u64; 1024];
    let mut falls = [0u64; 1024];
    let mut forks = [0u16; 1024];
    let mut parents = [0u16; 1024];
    let mut row = [0u16; 1024];
    let passed = deque_test_in(
        bytes,
        record.workers,
        record.quota,
        &next,
        &status,
        &amounts,
        &left,
        &right,
        record.leftmost,
        &under,
        &over,
        run.first,
        workers,
        record.busy,
        record.held,
        record.highest,
        record.turns,
        &mut rises,
        &mut falls,
        &mut forks,
        &mut parents,
        &mut row,
    );
    if passed { Some(parents) } else { None }
}

fn is_blank(run: DequeRun) -> bool
    ensures { result ≡ is_blank_deques run }
{
    let record = run.run;
    let table = record.table;
    if !bytes_rest(&table, 0) {
        return false;
    }
    if record.length != 0 {
        return false;
    }
    let next = record.next;
    let status = record.status;
    let amounts = record.amounts;
    let left = record.left;
    let right = record.right;
    let under = run.under;
    let over = run.over;
    let workers = record.worker;
    deque_blank_in(
        record.workers,
        record.quota,
        &next,
        &status,
        &amounts,
        &left,
        &right,
        record.leftmost,
        &under,
        &over,
        run.first,
        workers,
        record.busy,
        record.held,
        record.highest,
        record.turns,
    )
}

// Where 32 does not apply, the record being sound or blank, each thread's parent.
pub fn deque_test(run: DequeRun) -> Option<[u16; 1024]>
    ensures { result ≡ deques_tested run }
{
    if let Some(parents) = sound(run) {
        return Some(parents);
    }
    if is_blank(run) { Some([0; 1024]) } else { None }
}
