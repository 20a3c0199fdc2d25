// The blocks of a run and those of the marks: what stands in mark i is the i-th stretch of each.
ghost use Rattle.std.specs.Prelude.{◌≡◌, ◌<◌, length, set};
ghost use Rattle.run_memory.specs.Blocks.{memory_of};
ghost use Rattle.wivakkol_marks.specs.LentMarks.{memory_at, row_from, mended};

use run_memory::copies::{copy_front, copy_workers, workers_out};

// The workers' records written as a call writes them.
fn mend(
    bytes: &mut [u8; 1040],
    words: &mut [u16; 6163],
    numbers: &mut [u32; 18],
    sums: &[u64; 1027],
)
    ensures { memory_of bytes.new words.new numbers.new sums.now
        ≡ mended (memory_of bytes.old words.old numbers.old sums.now) }
{
    let workers = workers_out(&*bytes, &*words, &*numbers);
    copy_workers(bytes, words, numbers, workers);
}

// Mark i as it is read, into the blocks of a run.
pub(crate) fn load(
    i: usize,
    markbytes: &[u8; 8320],
    markwords: &[u16; 49304],
    marknumbers: &[u32; 144],
    marksums: &[u64; 8216],
    bytes: &mut [u8; 1040],
    words: &mut [u16; 6163],
    numbers: &mut [u32; 18],
    sums: &mut [u64; 1027],
)
    requires { i < 8 }
    ensures { memory_of bytes.new words.new numbers.new sums.new
        ≡ mended (memory_at markbytes.now markwords.now marknumbers.now marksums.now i) }
{
    copy_front(&markbytes[1040 * i..1040 * i + 1040], bytes);
    copy_front(&markwords[6163 * i..6163 * i + 6163], words);
    copy_front(&marknumbers[18 * i..18 * i + 18], numbers);
    copy_front(&marksums[1027 * i..1027 * i + 1027], sums);
    mend(bytes, words, numbers, &*sums);
}

// A mark is set.
pub(crate) fn note(flags: &mut [u8], at: usize)
    requires { at < length flags.old }
    ensures { flags.new ≡ set flags.old at 1 }
{
    flags[at] = 1;
}

// A run's blocks into mark i.
pub(crate) fn store(
    i: usize,
    bytes: &[u8; 1040],
    words: &[u16; 6163],
    numbers: &[u32; 18],
    sums: &[u64; 1027],
    markbytes: &mut [u8; 8320],
    markwords: &mut [u16; 49304],
    marknumbers: &mut [u32; 144],
    marksums: &mut [u64; 8216],
)
    requires { i < 8 }
    ensures { row_from (memory_at markbytes.new markwords.new marknumbers.new marksums.new) 0 8
        ≡ set (row_from (memory_at markbytes.old markwords.old marknumbers.old marksums.old) 0 8) i
        (memory_of bytes.now words.now numbers.now sums.now) }
{
    copy_front(bytes, &mut markbytes[1040 * i..1040 * i + 1040]);
    copy_front(words, &mut markwords[6163 * i..6163 * i + 6163]);
    copy_front(numbers, &mut marknumbers[18 * i..18 * i + 18]);
    copy_front(sums, &mut marksums[1027 * i..1027 * i + 1027]);
}
