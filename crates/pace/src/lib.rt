// A keeper of the rule with b over lent memory (specs/Pace): what each worker has had of turns since each other's latest. No call traps, whatever the memory holds.
#![tactic(auto)]

ghost use Rattle.std.specs.Prelude.{◌≡◌, ◌*◌, ◌<◌, max};
ghost use Rattle.pace.specs.Pace.{paced, start_pace, most_from, asked, counted, renewed, next_in, kept_in, took_number};
ghost use Rattle.pace.specs.Pace.{may as may_of, took as took_of};
ghost use Rattle.pace.specs.Pace.{one_more as one_more_of};
ghost use Rattle.pace.specs.Pace.{may_number};

pub const WORKERS: usize = 16;

// where b, p, the least b kept and one more than the worker of the latest turn stand
pub const BOUND: usize = 256;

pub const COUNT: usize = 257;

pub const KEPT: usize = 258;

pub const AFTER: usize = 259;

// Begins a pace for p workers and b: 0, or 20 where p is not 1 to 16, 41 where b is not 1 to 65,535; then nothing is written.
pub fn start(p: u32, b: u32, pace: &mut [u32; 260]) -> u32
    ensures { paced result pace.new ≡ start_pace p b pace.old }
{
    if p == 0 {
        return 20;
    }
    if 16 < p {
        return 20;
    }
    if b == 0 {
        return 41;
    }
    if 65535 < b {
        return 41;
    }
    *pace = [0; 260];
    pace[BOUND] = b;
    pace[COUNT] = p;
    0
}

// The greatest of worker w's sixteen numbers.
fn most(pace: &[u32; 260], w: usize) -> u32
    requires { w < 16 }
    ensures { result ≡ most_from 16 (16 * w) pace.now }
{
    let base = WORKERS * w;
    let mut greatest = 0;
    for x in 0..16 {
        let n = pace[base + x];
        greatest = greatest.max(n);
    }
    greatest
}

// The least b with which worker w may have the next turn.
pub fn asks(pace: &[u32; 260], w: u32) -> u32
    ensures { result ≡ asked pace.now w }
{
    if w < 16 { most(pace, w as usize) } else { 0 }
}

// May worker w have the next turn?
pub fn may(pace: &[u32; 260], w: u32) -> bool
    ensures { result ≡ may_of pace.now w }
{
    let bound = pace[BOUND];
    asks(pace, w) <= bound
}

fn one_more(n: u32) -> u32
    ensures { result ≡ one_more_of n }
{
    if n == 0 {
        return n;
    }
    if n == u32::MAX { n } else { n + 1 }
}

// Worker w's turn, counted since the latest of each other.
fn count(pace: &mut [u32; 260], w: usize)
    requires { w < 16 }
    ensures { pace.new ≡ counted 16 (16 * w) pace.old }
{
    let base = WORKERS * w;
    for x in 0..16 {
        pace[base + x] = one_more(pace[base + x]);
    }
}

// This turn is worker w's latest, for each other.
fn renew(pace: &mut [u32; 260], w: usize)
    requires { w < 16 }
    ensures { pace.new ≡ renewed 16 w pace.old }
{
    for v in 0..16 {
        pace[WORKERS * v + w] = 1;
    }
}

// Worker w has had a turn.
pub fn took(pace: &mut [u32; 260], w: u32)
    ensures { pace.new ≡ took_of pace.old w }
{
    if w < 16 {
        let i = w as usize;
        let n = most(&*pace, i);
        pace[KEPT] = pace[KEPT].max(n);
        pace[AFTER] = w + 1;
        count(pace, i);
        renew(pace, i);
        pace[17 * i] = 0;
    }
}

// 0 where worker w may have the next turn; 30 where it is not below p, 60 where its turn would break the rule.
pub fn hinders(pace: &[u32; 260], w: u32) -> u32
    ensures { result ≡ may_number pace.now w }
{
    if pace[COUNT] <= w {
        return 30;
    }
    if may(pace, w) { 0 } else { 60 }
}

// The worker whose turn comes next in rounds.
pub fn next(pace: &[u32; 260]) -> u32
    ensures { result ≡ next_in pace.now }
{
    let after = pace[AFTER];
    if after < pace[COUNT] { after } else { 0 }
}

// The least b that the turns counted so far keep.
pub fn kept(pace: &[u32; 260]) -> u32
    ensures { result ≡ kept_in pace.now }
{
    pace[KEPT]
}

// Worker w has had a turn that nobody refused: 0, or 30 where it is not below p, and then nothing is written.
pub fn note(pace: &mut [u32; 260], w: u32) -> u32
    ensures { paced result pace.new ≡ took_number pace.old w }
{
    if pace[COUNT] <= w {
        return 30;
    }
    took(pace, w);
    0
}
