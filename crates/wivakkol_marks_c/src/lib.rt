// The calls of include/wivakkol_marks.h, as C links them. Each calls crate wivakkol_marks's function of its name and states its clauses again: a library for other crates exports nothing to C.
#![tactic(auto)]

ghost use Rattle.std.specs.Prelude.{◌≡◌, length, replicate};
ghost use Rattle.run_memory.specs.Blocks.{memory_of};
ghost use Rattle.wivakkol_marks.specs.LentMarks.{marks_of, setting, lent_mark, Cleared, going, lent_back};

#[unsafe(no_mangle)]
pub extern "C" fn wivakkol_mark_on(
    table: &[u8],
    i: u32,
    bytes: &[u8; 1040],
    words: &[u16; 6163],
    numbers: &[u32; 18],
    sums: &[u64; 1027],
    set: &mut [u8; 8],
    markbytes: &mut [u8; 8320],
    markwords: &mut [u16; 49304],
    marknumbers: &mut [u32; 144],
    marksums: &mut [u64; 8216],
    sparebytes: &mut [u8; 1040],
    sparewords: &mut [u16; 6163],
    sparenumbers: &mut [u32; 18],
    sparesums: &mut [u64; 1027],
    next: &mut [u16; 1024],
    status: &mut [u8; 1024],
    amounts: &mut [u64; 1024],
    left: &mut [u16; 1024],
    right: &mut [u16; 1024],
    rises: &mut [u64; 1024],
    falls: &mut [u64; 1024],
    forks: &mut [u16; 1024],
    seen: &mut [u16; 1024],
    list: &mut [u16; 1024],
) -> u32
    ensures marksums_after { setting result (marks_of set.new markbytes.new markwords.new marknumbers.new marksums.new) ≡ lent_mark table.now i (memory_of bytes.now words.now numbers.now sums.now) (marks_of set.old markbytes.old markwords.old marknumbers.old marksums.old) }
    ensures cleared { Cleared sparebytes.new sparewords.new sparenumbers.new sparesums.new next.new status.new amounts.new left.new right.new rises.new falls.new forks.new seen.new list.new }
    ensures set_len { result ≡ 0 → length set.old ≡ 8 }
{
    wivakkol_marks::wivakkol_mark_on(
        table,
        i,
        bytes,
        words,
        numbers,
        sums,
        set,
        markbytes,
        markwords,
        marknumbers,
        marksums,
        sparebytes,
        sparewords,
        sparenumbers,
        sparesums,
        next,
        status,
        amounts,
        left,
        right,
        rises,
        falls,
        forks,
        seen,
        list,
    )
}

#[unsafe(no_mangle)]
pub extern "C" fn wivakkol_back_on(
    table: &[u8],
    i: u32,
    bytes: &mut [u8; 1040],
    words: &mut [u16; 6163],
    numbers: &mut [u32; 18],
    sums: &mut [u64; 1027],
    set: &[u8; 8],
    markbytes: &[u8; 8320],
    markwords: &[u16; 49304],
    marknumbers: &[u32; 144],
    marksums: &[u64; 8216],
    sparebytes: &mut [u8; 1040],
    sparewords: &mut [u16; 6163],
    sparenumbers: &mut [u32; 18],
    sparesums: &mut [u64; 1027],
    next: &mut [u16; 1024],
    status: &mut [u8; 1024],
    amounts: &mut [u64; 1024],
    left: &mut [u16; 1024],
    right: &mut [u16; 1024],
    rises: &mut [u64; 1024],
    falls: &mut [u64; 1024],
    forks: &mut [u16; 1024],
    seen: &mut [u16; 1024],
    list: &mut [u16; 1024],
) -> u32
    ensures sums_after { going result (memory_of bytes.new words.new numbers.new sums.new) ≡ lent_back table.now i (memory_of bytes.old words.old numbers.old sums.old) (marks_of set.now markbytes.now markwords.now marknumbers.now marksums.now) }
    ensures cleared { Cleared sparebytes.new sparewords.new sparenumbers.new sparesums.new next.new status.new amounts.new left.new right.new rises.new falls.new forks.new seen.new list.new }
{
    wivakkol_marks::wivakkol_back_on(
        table,
        i,
        bytes,
        words,
        numbers,
        sums,
        set,
        markbytes,
        markwords,
        marknumbers,
        marksums,
        sparebytes,
        sparewords,
        sparenumbers,
        sparesums,
        next,
        status,
        amounts,
        left,
        right,
        rises,
        falls,
        forks,
        seen,
        list,
    )
}

#[unsafe(no_mangle)]
pub extern "C" fn wivakkol_unmark_on(set: &mut [u8; 8])
    ensures { set.new ≡ replicate 8 0 }
{
    wivakkol_marks::wivakkol_unmark_on(set);
}
