// Marks to come back to (N11), by value: setting one and going back to one. The run goes by value, and the marks and the working memory are lent, as nine records would be too much to hand over.
// The calls pack the record into the blocks of crates/run_memory, as those of crates/asyncdf do, and are made there (crates/wivakkol_marks); wivakkol_marks::wivakkol_unmark_on clears the marks.
#![tactic(auto)]

ghost use Rattle.std.specs.Prelude.{◌≡◌, false, ◌<◌, eqb, length};
ghost use Rattle.table.specs.Pass.{try_at};
ghost use Rattle.schedule.specs.Record.{bytes_of};
ghost use Rattle.schedule.specs.Record.{blank as blank_run};
ghost use Rattle.schedule.specs.Turn.{unsound};
ghost use Rattle.marks.specs.Marks.{set_checks, back_checks, set_values, back_values, set_as, back_as};
ghost use Rattle.run_memory.specs.Blocks.{memory_of};
ghost use Rattle.run_memory.specs.Packing.{memory_for};
ghost use Rattle.wivakkol_marks.specs.LentMarks.{marks_of, setting, lent_mark, lent_back, Cleared};
ghost use Rattle.wivakkol_marks.specs.MarkedIn.{record_in, marks_in, numbered};
ghost use Rattle.marking.specs.Marking.{marking_values, is_done, marked_by, marks_after};
ghost use Rattle.marking.specs.Code.Restored.{Restored};

use run_memory::packing::{pack, unpack};
use run_memory::places::{QUOTA, WORKERS, setting_at};
use schedule::{Run, Worker};
use soundness::test;
use table::Refusal;
use wivakkol_marks::clear;

// The run after going back; as it was where that is refused.
#[derive(Drop)]
pub struct Gone {
    pub answer: Result<(), Refusal>,
    pub run: Run,
}

fn answer_of(number: u32) -> Result<(), Refusal>
    requires { number < 256 }
    ensures result_value { marking_values result ≡ numbered number }
    ensures result_value_2 { is_done result ≡ eqb (marking_values result).number 0 }
{
    if number == 0 {
        return Ok(());
    }
    let number = number as u8;
    Err(Refusal { number, place: 0 })
}

const NOBODY: Worker = Worker {
    holds: false,
    thread: 0,
    quota: 0,
};

fn blank() -> Run
    ensures { result ≡ blank_run }
{
    Run {
        table: [0; 36868],
        length: 0,
        workers: 0,
        quota: 0,
        next: [0; 1024],
        status: [0; 1024],
        amounts: [0; 1024],
        left: [0; 1024],
        right: [0; 1024],
        leftmost: 0,
        worker: [NOBODY; 16],
        busy: 0,
        held: 0,
        highest: 0,
        turns: 0,
    }
}

// The record that stands in the blocks, with the run's table; the blank one has none.
fn restored(
    run: Run,
    bytes: &[u8; 1040],
    words: &[u16; 6163],
    numbers: &[u32; 18],
    sums: &[u64; 1027],
) -> Run
    requires { Restored run (memory_of bytes.now words.now numbers.now sums.now) }
    ensures { result ≡ record_in (bytes_of run) (memory_of bytes.now words.now numbers.now sums.now) }
{
    let p = setting_at(numbers, WORKERS);
    if p == 0 {
        return blank();
    }
    let quota = setting_at(numbers, QUOTA);
    let mut record = unpack(run, bytes, words, numbers, sums);
    record.workers = p as u8;
    record.quota = quota;
    record
}

fn set_packed(
    run: Run,
    parents: &[u16; 1024],
    i: u8,
    set: &mut [u8; 8],
    markbytes: &mut [u8; 8320],
    markwords: &mut [u16; 49304],
    marknumbers: &mut [u32; 144],
    marksums: &mut [u64; 8216],
    sparebytes: &mut [u8; 1040],
    sparewords: &mut [u16; 6163],
    sparenumbers: &mut [u32; 18],
    sparesums: &mut [u64; 1027],
    next: &mut [u16; 1024],
    status: &mut [u8; 1024],
    amounts: &mut [u64; 1024],
    left: &mut [u16; 1024],
    right: &mut [u16; 1024],
    rises: &mut [u64; 1024],
    falls: &mut [u64; 1024],
    forks: &mut [u16; 1024],
    seen: &mut [u16; 1024],
    list: &mut [u16; 1024],
) -> u32
    requires { unsound run ≡ false }
    ensures marksums_after { setting result (marks_of set.new markbytes.new markwords.new marknumbers.new marksums.new) ≡ lent_mark (bytes_of run) i (memory_for run parents.now) (marks_of set.old markbytes.old markwords.old marknumbers.old marksums.old) }
    ensures set_len { result ≡ 0 → length set.old ≡ 8 }
{
    let all = run.table;
    let length = run.length as usize;
    let table = &all[..length];
    let mut bytes = [0u8; 1040];
    let mut words = [0u16; 6163];
    let mut numbers = [0u32; 18];
    let mut sums = [0u64; 1027];
    pack(
        run,
        parents,
        &mut bytes,
        &mut words,
        &mut numbers,
        &mut sums,
    );
    wivakkol_marks::wivakkol_mark_on(
        table,
        i as u32,
        &bytes,
        &words,
        &numbers,
        &sums,
        set,
        markbytes,
        markwords,
        marknumbers,
        marksums,
        sparebytes,
        sparewords,
        sparenumbers,
        sparesums,
        next,
        status,
        amounts,
        left,
        right,
        rises,
        falls,
        forks,
        seen,
        list,
    )
}

fn back_packed(
    run: Run,
    parents: &[u16; 1024],
    i: u8,
    set: &[u8; 8],
    markbytes: &[u8; 8320],
    markwords: &[u16; 49304],
    marknumbers: &[u32; 144],
    marksums: &[u64; 8216],
    sparebytes: &mut [u8; 1040],
    sparewords: &mut [u16; 6163],
    sparenumbers: &mut [u32; 18],
    sparesums: &mut [u64; 1027],
    next: &mut [u16; 1024],
    status: &mut [u8; 1024],
    amounts: &mut [u64; 1024],
    left: &mut [u16; 1024],
    right: &mut [u16; 1024],
    rises: &mut [u64; 1024],
    falls: &mut [u64; 1024],
    forks: &mut [u16; 1024],
    seen: &mut [u16; 1024],
    list: &mut [u16; 1024],
) -> Gone
    requires { unsound run ≡ false }
    ensures answer_value { marking_values result.answer ≡ numbered (lent_back (bytes_of run) i (memory_for run parents.now) (marks_of set.now markbytes.now markwords.now marknumbers.now marksums.now)).number }
    ensures answer_value_2 { is_done result.answer ≡ eqb (marking_values result.answer).number 0 }
    ensures run_value { result.run ≡ record_in (bytes_of run) (lent_back (bytes_of run) i (memory_for run parents.now) (marks_of set.now markbytes.now markwords.now marknumbers.now marksums.now)).memory }
{
    let all = run.table;
    let length = run.length as usize;
    let table = &all[..length];
    let mut bytes = [0u8; 1040];
    let mut words = [0u16; 6163];
    let mut numbers = [0u32; 18];
    let mut sums = [0u64; 1027];
    pack(
        run,
        parents,
        &mut bytes,
        &mut words,
        &mut numbers,
        &mut sums,
    );
    let number = wivakkol_marks::wivakkol_back_on(
        table,
        i as u32,
        &mut bytes,
        &mut words,
        &mut numbers,
        &mut sums,
        set,
        markbytes,
        markwords,
        marknumbers,
        marksums,
        sparebytes,
        sparewords,
        sparenumbers,
        sparesums,
        next,
        status,
        amounts,
        left,
        right,
        rises,
        falls,
        forks,
        seen,
        list,
    );
    if number != 0 {
        return Gone {
            answer: answer_of(number),
            run,
        };
    }
    let after = restored(run, &bytes, &words, &numbers, &sums);
    Gone {
        answer: Ok(()),
        run: after,
    }
}

// Sets mark i to the run as it is: 32, of the run or of a set mark, 45. The marks as they were where it refuses; the working memory is left cleared.
pub fn set_mark(
    run: Run,
    i: u8,
    set: &mut [u8; 8],
    markbytes: &mut [u8; 8320],
    markwords: &mut [u16; 49304],
    marknumbers: &mut [u32; 144],
    marksums: &mut [u64; 8216],
    sparebytes: &mut [u8; 1040],
    sparewords: &mut [u16; 6163],
    sparenumbers: &mut [u32; 18],
    sparesums: &mut [u64; 1027],
    next: &mut [u16; 1024],
    status: &mut [u8; 1024],
    amounts: &mut [u64; 1024],
    left: &mut [u16; 1024],
    right: &mut [u16; 1024],
    rises: &mut [u64; 1024],
    falls: &mut [u64; 1024],
    forks: &mut [u16; 1024],
    seen: &mut [u16; 1024],
    list: &mut [u16; 1024],
) -> Result<(), Refusal>
    ensures result_value { marking_values result ≡ set_values (marked_by run (marks_of set.old markbytes.old markwords.old marknumbers.old marksums.old)) i }
    ensures marksums_after { marks_in (bytes_of run) (marks_of set.new markbytes.new markwords.new marknumbers.new marksums.new) ≡ (set_as (try_at (set_checks (marked_by run (marks_of set.old markbytes.old markwords.old marknumbers.old marksums.old)) i) 0) i (marked_by run (marks_of set.old markbytes.old markwords.old marknumbers.old marksums.old))).marks }
    ensures cleared { Cleared sparebytes.new sparewords.new sparenumbers.new sparesums.new next.new status.new amounts.new left.new right.new rises.new falls.new forks.new seen.new list.new }
    ensures marksums_after_2 { marks_of set.new markbytes.new markwords.new marknumbers.new marksums.new ≡ marks_after run i (marks_of set.old markbytes.old markwords.old marknumbers.old marksums.old) }
    ensures result_value_2 { is_done result ≡ eqb (marking_values result).number 0 }
{
    let Some(parents) = test(run) else {
        clear(
            sparebytes,
            sparewords,
            sparenumbers,
            sparesums,
            next,
            status,
            amounts,
            left,
            right,
            rises,
            falls,
            forks,
            seen,
            list,
        );
        return answer_of(32);
    };
    let number = set_packed(
        run,
        &parents,
        i,
        set,
        markbytes,
        markwords,
        marknumbers,
        marksums,
        sparebytes,
        sparewords,
        sparenumbers,
        sparesums,
        next,
        status,
        amounts,
        left,
        right,
        rises,
        falls,
        forks,
        seen,
        list,
    );
    clear(
        sparebytes,
        sparewords,
        sparenumbers,
        sparesums,
        next,
        status,
        amounts,
        left,
        right,
        rises,
        falls,
        forks,
        seen,
        list,
    );
    answer_of(number)
}

// Goes back to mark i: 32, 45, 46, or the run as it was when the mark was set. The working memory is left cleared.
pub fn go_back(
    run: Run,
    i: u8,
    set: &[u8; 8],
    markbytes: &[u8; 8320],
    markwords: &[u16; 49304],
    marknumbers: &[u32; 144],
    marksums: &[u64; 8216],
    sparebytes: &mut [u8; 1040],
    sparewords: &mut [u16; 6163],
    sparenumbers: &mut [u32; 18],
    sparesums: &mut [u64; 1027],
    next: &mut [u16; 1024],
    status: &mut [u8; 1024],
    amounts: &mut [u64; 1024],
    left: &mut [u16; 1024],
    right: &mut [u16; 1024],
    rises: &mut [u64; 1024],
    falls: &mut [u64; 1024],
    forks: &mut [u16; 1024],
    seen: &mut [u16; 1024],
    list: &mut [u16; 1024],
) -> Gone
    ensures answer_value { marking_values result.answer ≡ back_values (marked_by run (marks_of set.now markbytes.now markwords.now marknumbers.now marksums.now)) i }
    ensures run_value { result.run ≡ (back_as (try_at (back_checks (marked_by run (marks_of set.now markbytes.now markwords.now marknumbers.now marksums.now)) i) 0) i (marked_by run (marks_of set.now markbytes.now markwords.now marknumbers.now marksums.now))).run }
    ensures cleared { Cleared sparebytes.new sparewords.new sparenumbers.new sparesums.new next.new status.new amounts.new left.new right.new rises.new falls.new forks.new seen.new list.new }
    ensures answer_value_2 { is_done result.answer ≡ eqb (marking_values result.answer).number 0 }
{
    let Some(parents) = test(run) else {
        clear(
            sparebytes,
            sparewords,
            sparenumbers,
            sparesums,
            next,
            status,
            amounts,
            left,
            right,
            rises,
            falls,
            forks,
            seen,
            list,
        );
        return Gone {
            answer: answer_of(32),
            run,
        };
    };
    let gone = back_packed(
        run,
        &parents,
        i,
        set,
        markbytes,
        markwords,
        marknumbers,
        marksums,
        sparebytes,
        sparewords,
        sparenumbers,
        sparesums,
        next,
        status,
        amounts,
        left,
        right,
        rises,
        falls,
        forks,
        seen,
        list,
    );
    clear(
        sparebytes,
        sparewords,
        sparenumbers,
        sparesums,
        next,
        status,
        amounts,
        left,
        right,
        rises,
        falls,
        forks,
        seen,
        list,
    );
    gone
}
