// The parts, lent back to back.
ghost use Rattle.std.specs.Prelude.{◌≡◌, [], ◌<◌, ◌≤◌, length, get_or, take};
ghost use Rattle.table.specs.Sum.{Read};
ghost use Rattle.joining.specs.Answers.{parts_of, sum_of, parts_wrong};
ghost use Rattle.joining.specs.Code.Steps.{Lent};

fn wide(x: u32) -> usize
    ensures { Read x 4294967296 result }
{
    x as usize
}

// The sum of the first k lengths, at most 16.
fn sum_to(lengths: &[u32], k: usize) -> usize
    requires { (k ≤ length lengths.now) × (k ≤ 16) }
    ensures { result ≡ sum_of (take k lengths.now) }
{
    let mut sum = 0;
    for i in 0..k {
        sum += wide(lengths[i]);
    }
    sum
}

// Check 47. The sum of sixteen lengths of 32 bits fits in 64.
pub(crate) fn parts_wrong(tables: &[u8], lengths: &[u32]) -> bool
    ensures { result ≡ parts_wrong lengths.now tables.now }
{
    let k = lengths.len();
    if k == 0 {
        return true;
    }
    if 16 < k {
        return true;
    }
    sum_to(lengths, k) != tables.len()
}

// Part i.
pub(crate) fn part_at<'a>(tables: &'a [u8], lengths: &[u32], i: usize) -> &'a [u8]
    requires { Lent lengths.now tables.now × (i < length lengths.now) }
    ensures { result.now ≡ get_or (parts_of lengths.now tables.now) i [] }
{
    let start = sum_to(lengths, i);
    let stop = sum_to(lengths, i + 1);
    &tables[start..stop]
}
