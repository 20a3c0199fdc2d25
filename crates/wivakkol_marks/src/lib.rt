// Marks to come back to (N11), as C calls them: on numbers and lent memory alone, answering any input whatever. They stand in an archive of their own, so that a board without marks pays
// nothing for them. include/wivakkol_marks.h has the prototypes.
#![tactic(auto)]

ghost use Rattle.std.specs.Prelude.{◌≡◌, not, ◌||◌, ◌<◌, length, replicate};
ghost use Rattle.run_memory.specs.Memory.{number_in};
ghost use Rattle.run_memory.specs.Blocks.{memory_of};
ghost use Rattle.wivakkol_marks.specs.LentMarks.{marks_of, is_set_in, mark_in, fit_in, fit_marks, fit_marked, setting, lent_mark, going, lent_back, Cleared};

use crate::copies::{load, note, store};
use crate::standing::{fit, reopen};

mod copies;
mod standing;

// The working memory goes from call to call as C lends it, array by array: a struct of fourteen `&mut` needs a clause for each of them in every function that takes it.
// The refusals are numbers: C is answered these.

// "record not sound and not blank", of the run or of a set mark
const UNSOUND: u32 = 32;

// a mark above 7
const NO_MARK: u32 = 45;

const LAST_MARK: u32 = 7;

// a mark that is not set
const NOT_SET: u32 = 46;

// 32 does not apply to mark i, or it is not set.
fn fit_mark(
    i: usize,
    table: &[u8],
    set: &[u8; 8],
    markbytes: &[u8; 8320],
    markwords: &[u16; 49304],
    marknumbers: &[u32; 144],
    marksums: &[u64; 8216],
    bytes: &mut [u8; 1040],
    words: &mut [u16; 6163],
    numbers: &mut [u32; 18],
    sums: &mut [u64; 1027],
    next: &mut [u16; 1024],
    status: &mut [u8; 1024],
    amounts: &mut [u64; 1024],
    left: &mut [u16; 1024],
    right: &mut [u16; 1024],
    rises: &mut [u64; 1024],
    falls: &mut [u64; 1024],
    forks: &mut [u16; 1024],
    seen: &mut [u16; 1024],
    list: &mut [u16; 1024],
) -> bool
    requires { i < 8 }
    ensures { result ≡ (not (is_set_in (marks_of set.now markbytes.now markwords.now marknumbers.now marksums.now) i)
        || fit_in table.now (mark_in (marks_of set.now markbytes.now markwords.now marknumbers.now marksums.now) i)) }
{
    if set[i] == 0 {
        return true;
    }
    load(
        i,
        markbytes,
        markwords,
        marknumbers,
        marksums,
        bytes,
        words,
        numbers,
        sums,
    );
    fit(
        table, &*bytes, &*words, &*numbers, &*sums, next, status, amounts, left, right, rises,
        falls, forks, seen, list,
    )
}

// 32 applies to no set mark.
fn fit_marks(
    table: &[u8],
    set: &[u8; 8],
    markbytes: &[u8; 8320],
    markwords: &[u16; 49304],
    marknumbers: &[u32; 144],
    marksums: &[u64; 8216],
    bytes: &mut [u8; 1040],
    words: &mut [u16; 6163],
    numbers: &mut [u32; 18],
    sums: &mut [u64; 1027],
    next: &mut [u16; 1024],
    status: &mut [u8; 1024],
    amounts: &mut [u64; 1024],
    left: &mut [u16; 1024],
    right: &mut [u16; 1024],
    rises: &mut [u64; 1024],
    falls: &mut [u64; 1024],
    forks: &mut [u16; 1024],
    seen: &mut [u16; 1024],
    list: &mut [u16; 1024],
) -> bool
    ensures { result ≡ fit_marks table.now (marks_of set.now markbytes.now markwords.now marknumbers.now marksums.now) }
{
    // `i` is a mark, the i-th stretch of four blocks, and no item of a slice.
    for i in 0..8 {
        let fits = fit_mark(
            i,
            table,
            set,
            markbytes,
            markwords,
            marknumbers,
            marksums,
            bytes,
            words,
            numbers,
            sums,
            next,
            status,
            amounts,
            left,
            right,
            rises,
            falls,
            forks,
            seen,
            list,
        );
        if !fits {
            return false;
        }
    }
    true
}

// 32 applies neither to the run nor to a set mark.
fn fit_marked(
    table: &[u8],
    bytes: &[u8; 1040],
    words: &[u16; 6163],
    numbers: &[u32; 18],
    sums: &[u64; 1027],
    set: &[u8; 8],
    markbytes: &[u8; 8320],
    markwords: &[u16; 49304],
    marknumbers: &[u32; 144],
    marksums: &[u64; 8216],
    sparebytes: &mut [u8; 1040],
    sparewords: &mut [u16; 6163],
    sparenumbers: &mut [u32; 18],
    sparesums: &mut [u64; 1027],
    next: &mut [u16; 1024],
    status: &mut [u8; 1024],
    amounts: &mut [u64; 1024],
    left: &mut [u16; 1024],
    right: &mut [u16; 1024],
    rises: &mut [u64; 1024],
    falls: &mut [u64; 1024],
    forks: &mut [u16; 1024],
    seen: &mut [u16; 1024],
    list: &mut [u16; 1024],
) -> bool
    ensures { result ≡ fit_marked table.now (memory_of bytes.now words.now numbers.now sums.now) (marks_of set.now markbytes.now markwords.now marknumbers.now marksums.now) }
{
    let fits = fit(
        table, bytes, words, numbers, sums, next, status, amounts, left, right, rises, falls,
        forks, seen, list,
    );
    if !fits {
        return false;
    }
    fit_marks(
        table,
        set,
        markbytes,
        markwords,
        marknumbers,
        marksums,
        sparebytes,
        sparewords,
        sparenumbers,
        sparesums,
        next,
        status,
        amounts,
        left,
        right,
        rises,
        falls,
        forks,
        seen,
        list,
    )
}

// The working memory is cleared.
pub fn clear(
    sparebytes: &mut [u8; 1040],
    sparewords: &mut [u16; 6163],
    sparenumbers: &mut [u32; 18],
    sparesums: &mut [u64; 1027],
    next: &mut [u16; 1024],
    status: &mut [u8; 1024],
    amounts: &mut [u64; 1024],
    left: &mut [u16; 1024],
    right: &mut [u16; 1024],
    rises: &mut [u64; 1024],
    falls: &mut [u64; 1024],
    forks: &mut [u16; 1024],
    seen: &mut [u16; 1024],
    list: &mut [u16; 1024],
)
    ensures { Cleared sparebytes.new sparewords.new sparenumbers.new sparesums.new next.new status.new amounts.new left.new right.new rises.new falls.new forks.new seen.new list.new }
{
    *sparebytes = [0; 1040];
    *sparewords = [0; 6163];
    *sparenumbers = [0; 18];
    *sparesums = [0; 1027];
    *next = [0; 1024];
    *status = [0; 1024];
    *amounts = [0; 1024];
    *left = [0; 1024];
    *right = [0; 1024];
    *rises = [0; 1024];
    *falls = [0; 1024];
    *forks = [0; 1024];
    *seen = [0; 1024];
    *list = [0; 1024];
}

// Sets mark i to the run as it is: 32, of the run or of a set mark, 45. What is left in the working memory is not said.
fn set_mark(
    table: &[u8],
    i: u32,
    bytes: &[u8; 1040],
    words: &[u16; 6163],
    numbers: &[u32; 18],
    sums: &[u64; 1027],
    set: &mut [u8; 8],
    markbytes: &mut [u8; 8320],
    markwords: &mut [u16; 49304],
    marknumbers: &mut [u32; 144],
    marksums: &mut [u64; 8216],
    sparebytes: &mut [u8; 1040],
    sparewords: &mut [u16; 6163],
    sparenumbers: &mut [u32; 18],
    sparesums: &mut [u64; 1027],
    next: &mut [u16; 1024],
    status: &mut [u8; 1024],
    amounts: &mut [u64; 1024],
    left: &mut [u16; 1024],
    right: &mut [u16; 1024],
    rises: &mut [u64; 1024],
    falls: &mut [u64; 1024],
    forks: &mut [u16; 1024],
    seen: &mut [u16; 1024],
    list: &mut [u16; 1024],
) -> Result<(), u32>
    ensures { setting (number_in result) (marks_of set.new markbytes.new markwords.new marknumbers.new marksums.new) ≡ lent_mark table.now i (memory_of bytes.now words.now numbers.now sums.now) (marks_of set.old markbytes.old markwords.old marknumbers.old marksums.old) }
{
    let fits = fit_marked(
        table,
        bytes,
        words,
        numbers,
        sums,
        &*set,
        &*markbytes,
        &*markwords,
        &*marknumbers,
        &*marksums,
        sparebytes,
        sparewords,
        sparenumbers,
        sparesums,
        next,
        status,
        amounts,
        left,
        right,
        rises,
        falls,
        forks,
        seen,
        list,
    );
    if !fits {
        return Err(UNSOUND);
    }
    if LAST_MARK < i {
        return Err(NO_MARK);
    }
    let at = i as usize;
    store(
        at,
        bytes,
        words,
        numbers,
        sums,
        markbytes,
        markwords,
        marknumbers,
        marksums,
    );
    note(set, at);
    Ok(())
}

// Goes back to mark i: 32, 45, 46, or the run that it keeps, opened.
fn go_back(
    table: &[u8],
    i: u32,
    bytes: &mut [u8; 1040],
    words: &mut [u16; 6163],
    numbers: &mut [u32; 18],
    sums: &mut [u64; 1027],
    set: &[u8; 8],
    markbytes: &[u8; 8320],
    markwords: &[u16; 49304],
    marknumbers: &[u32; 144],
    marksums: &[u64; 8216],
    sparebytes: &mut [u8; 1040],
    sparewords: &mut [u16; 6163],
    sparenumbers: &mut [u32; 18],
    sparesums: &mut [u64; 1027],
    next: &mut [u16; 1024],
    status: &mut [u8; 1024],
    amounts: &mut [u64; 1024],
    left: &mut [u16; 1024],
    right: &mut [u16; 1024],
    rises: &mut [u64; 1024],
    falls: &mut [u64; 1024],
    forks: &mut [u16; 1024],
    seen: &mut [u16; 1024],
    list: &mut [u16; 1024],
) -> Result<(), u32>
    ensures { going (number_in result) (memory_of bytes.new words.new numbers.new sums.new) ≡ lent_back table.now i (memory_of bytes.old words.old numbers.old sums.old) (marks_of set.now markbytes.now markwords.now marknumbers.now marksums.now) }
{
    let fits = fit_marked(
        table,
        &*bytes,
        &*words,
        &*numbers,
        &*sums,
        set,
        markbytes,
        markwords,
        marknumbers,
        marksums,
        sparebytes,
        sparewords,
        sparenumbers,
        sparesums,
        next,
        status,
        amounts,
        left,
        right,
        rises,
        falls,
        forks,
        seen,
        list,
    );
    if !fits {
        return Err(UNSOUND);
    }
    if LAST_MARK < i {
        return Err(NO_MARK);
    }
    let at = i as usize;
    if set[at] == 0 {
        return Err(NOT_SET);
    }
    load(
        at,
        markbytes,
        markwords,
        marknumbers,
        marksums,
        bytes,
        words,
        numbers,
        sums,
    );
    reopen(
        table, &*bytes, words, &*numbers, &*sums, next, status, amounts, left, right, rises, falls,
        forks, seen, list,
    );
    Ok(())
}

// The number that C is answered: of a refusal, or 0.
fn number_of(answer: Result<(), u32>) -> u32
    ensures { result ≡ number_in answer }
{
    match answer {
        Ok(()) => 0,
        Err(number) => number,
    }
}

// Sets mark i to the run as it is, or gives the check that refuses; the marks are then as they were. The working memory is left cleared.
pub fn wivakkol_mark_on(
    table: &[u8],
    i: u32,
    bytes: &[u8; 1040],
    words: &[u16; 6163],
    numbers: &[u32; 18],
    sums: &[u64; 1027],
    set: &mut [u8; 8],
    markbytes: &mut [u8; 8320],
    markwords: &mut [u16; 49304],
    marknumbers: &mut [u32; 144],
    marksums: &mut [u64; 8216],
    sparebytes: &mut [u8; 1040],
    sparewords: &mut [u16; 6163],
    sparenumbers: &mut [u32; 18],
    sparesums: &mut [u64; 1027],
    next: &mut [u16; 1024],
    status: &mut [u8; 1024],
    amounts: &mut [u64; 1024],
    left: &mut [u16; 1024],
    right: &mut [u16; 1024],
    rises: &mut [u64; 1024],
    falls: &mut [u64; 1024],
    forks: &mut [u16; 1024],
    seen: &mut [u16; 1024],
    list: &mut [u16; 1024],
) -> u32
    ensures marksums_after { setting result (marks_of set.new markbytes.new markwords.new marknumbers.new marksums.new) ≡ lent_mark table.now i (memory_of bytes.now words.now numbers.now sums.now) (marks_of set.old markbytes.old markwords.old marknumbers.old marksums.old) }
    ensures cleared { Cleared sparebytes.new sparewords.new sparenumbers.new sparesums.new next.new status.new amounts.new left.new right.new rises.new falls.new forks.new seen.new list.new }
    ensures set_len { result ≡ 0 → length set.old ≡ 8 }
{
    let marked = set_mark(
        table,
        i,
        bytes,
        words,
        numbers,
        sums,
        set,
        markbytes,
        markwords,
        marknumbers,
        marksums,
        sparebytes,
        sparewords,
        sparenumbers,
        sparesums,
        next,
        status,
        amounts,
        left,
        right,
        rises,
        falls,
        forks,
        seen,
        list,
    );
    clear(
        sparebytes,
        sparewords,
        sparenumbers,
        sparesums,
        next,
        status,
        amounts,
        left,
        right,
        rises,
        falls,
        forks,
        seen,
        list,
    );
    number_of(marked)
}

// A call beside `wivakkol_mark_on`: C lends here what that one writes to be read, and the other way round.
// Goes back to mark i, and opens the run that it keeps; or gives the check that refuses, and the run is then as it was. The working memory is left cleared.
pub fn wivakkol_back_on(
    table: &[u8],
    i: u32,
    bytes: &mut [u8; 1040],
    words: &mut [u16; 6163],
    numbers: &mut [u32; 18],
    sums: &mut [u64; 1027],
    set: &[u8; 8],
    markbytes: &[u8; 8320],
    markwords: &[u16; 49304],
    marknumbers: &[u32; 144],
    marksums: &[u64; 8216],
    sparebytes: &mut [u8; 1040],
    sparewords: &mut [u16; 6163],
    sparenumbers: &mut [u32; 18],
    sparesums: &mut [u64; 1027],
    next: &mut [u16; 1024],
    status: &mut [u8; 1024],
    amounts: &mut [u64; 1024],
    left: &mut [u16; 1024],
    right: &mut [u16; 1024],
    rises: &mut [u64; 1024],
    falls: &mut [u64; 1024],
    forks: &mut [u16; 1024],
    seen: &mut [u16; 1024],
    list: &mut [u16; 1024],
) -> u32
    ensures sums_after { going result (memory_of bytes.new words.new numbers.new sums.new) ≡ lent_back table.now i (memory_of bytes.old words.old numbers.old sums.old) (marks_of set.now markbytes.now markwords.now marknumbers.now marksums.now) }
    ensures cleared { Cleared sparebytes.new sparewords.new sparenumbers.new sparesums.new next.new status.new amounts.new left.new right.new rises.new falls.new forks.new seen.new list.new }
{
    let gone = go_back(
        table,
        i,
        bytes,
        words,
        numbers,
        sums,
        set,
        markbytes,
        markwords,
        marknumbers,
        marksums,
        sparebytes,
        sparewords,
        sparenumbers,
        sparesums,
        next,
        status,
        amounts,
        left,
        right,
        rises,
        falls,
        forks,
        seen,
        list,
    );
    clear(
        sparebytes,
        sparewords,
        sparenumbers,
        sparesums,
        next,
        status,
        amounts,
        left,
        right,
        rises,
        falls,
        forks,
        seen,
        list,
    );
    number_of(gone)
}

// Clears the marks: none is set.
pub fn wivakkol_unmark_on(set: &mut [u8; 8])
    ensures { set.new ≡ replicate 8 0 }
{
    *set = [0; 8];
}
