// Rows of 17 numbers in lent memory: the peaks of a thread by the load allowed, and what the open children up to one hold at most by how many of them are unended.
ghost use Rattle.std.specs.Prelude.{◌≡◌, suc, ◌≤◌, slice_index, slice_set};
ghost use Rattle.peak_walk.specs.Code.Walk.{Small, row_value, pushed, row_greatest};

// The number at i, 0 where there is none.
pub(crate) fn number(l: &[u64], i: usize) -> u64
    ensures { result ≡ slice_index l.now i }
{
    if i < l.len() { l[i] } else { 0 }
}

// v at i, where that is in it.
pub(crate) fn put(l: &mut [u64], i: usize, v: u64)
    ensures { l.new ≡ slice_set l.old i v }
{
    if i < l.len() {
        l[i] = v;
    }
}

// Number j of the row of child c on row d.
fn row_value(
    peaks: &[u64],
    finals: &[u64],
    rows: &[u64],
    r: usize,
    c: usize,
    d: usize,
    j: usize,
) -> u64
    requires { Small r c d × (j ≤ r) }
    ensures { result ≡ row_value peaks.now finals.now r c d rows.now j }
{
    let over = number(finals, c).wrapping_add(number(rows, 17 * d + j));
    if j == 0 {
        return over;
    }
    let fewer = j - 1;
    let unended = number(peaks, 17 * c + (r - fewer));
    over.max(unended.wrapping_add(number(rows, 17 * d + fewer)))
}

// Child c's row on row d.
pub(crate) fn push_row(
    peaks: &[u64],
    finals: &[u64],
    rows: &mut [u64],
    r: usize,
    c: usize,
    d: usize,
)
    requires { Small r c d }
    ensures { rows.new ≡ pushed peaks.now finals.now r c d rows.old (suc r) }
{
    for j in 0..=r {
        let v = row_value(peaks, finals, rows, r, c, d, j);
        put(rows, 17 * (d + 1) + j, v);
    }
}

// The greatest of the first r + 1 numbers of row d.
pub(crate) fn row_greatest(rows: &[u64], r: usize, d: usize) -> u64
    requires { Small r 0 d }
    ensures { result ≡ row_greatest rows.now d r }
{
    let mut best = 0u64;
    for j in 0..=r {
        best = best.max(number(rows, 17 * d + j));
    }
    best
}
