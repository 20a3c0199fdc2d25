// The numbers of a run at their places in the four blocks (specs/Blocks): each read and each write of one, whatever stands there. A read outside a row gives 0, and a write there does nothing.
ghost use Rattle.std.specs.Prelude.{◌≡◌, length, get_or};
ghost use Rattle.run_memory.specs.Blocks.{bytes_in, words_in, numbers_in, sums_in};
ghost use Rattle.run_memory.specs.Memory.{worker_from};
ghost use Rattle.run_memory.specs.Places.{holds_in, statused, holding, rowed, threaded, head_at, headed, setting_at, set_to, quotaed, amounted, total_at, totalled};

use schedule::Worker;

// the rows of the words, a number for each thread
pub const PARENTS: usize = 0;

pub const NEXT: usize = 1;

pub const LEFT: usize = 2;

pub const RIGHT: usize = 3;

pub const UNDER: usize = 4;

pub const OVER: usize = 5;

// the heads: the leftmost thread of the list and of the second list, and the set of workers that hold a thread
pub const LEFTMOST: usize = 0;

pub const FIRST: usize = 1;

pub const BUSY: usize = 2;

// the totals: memory held, its highest, turns taken
pub const HELD: usize = 0;

pub const HIGHEST: usize = 1;

pub const TURNS: usize = 2;

// the settings: p and K
pub const WORKERS: usize = 0;

pub const QUOTA: usize = 1;

// Thread t's number in row k.
pub fn row_at(words: &[u16; 6163], k: usize, t: u16) -> u16
    ensures { result ≡ get_or ((words_in words.now).rows k) t 0 }
{
    if t < 1024 {
        if k < 6 {
            return words[1024 * k + t as usize];
        }
    }
    0
}

pub fn put_row(words: &mut [u16; 6163], k: usize, t: u16, x: u16)
    ensures { words_in words.new ≡ rowed k t x (words_in words.old) }
{
    if t < 1024 {
        if k < 6 {
            words[1024 * k + t as usize] = x;
        }
    }
}

// The thread that worker w's record names.
pub fn thread_at(words: &[u16; 6163], w: usize) -> u16
    ensures { result ≡ get_or (words_in words.now).threads w 0 }
{
    if w < 16 { words[6144 + w] } else { 0 }
}

pub fn put_thread(words: &mut [u16; 6163], w: usize, x: u16)
    ensures { words_in words.new ≡ threaded w x (words_in words.old) }
{
    if w < 16 {
        words[6144 + w] = x;
    }
}

pub fn head_at(words: &[u16; 6163], h: usize) -> u16
    ensures { result ≡ head_at h (words_in words.now) }
{
    if h < 3 { words[6160 + h] } else { 0 }
}

pub fn put_head(words: &mut [u16; 6163], h: usize, x: u16)
    ensures { words_in words.new ≡ headed h x (words_in words.old) }
{
    put_head_in(words, h, x);
}

pub fn status_at(bytes: &[u8; 1040], t: u16) -> u8
    ensures { result ≡ get_or (bytes_in bytes.now).status t 0 }
{
    if t < 1024 { bytes[t as usize] } else { 0 }
}

pub fn put_status(bytes: &mut [u8; 1040], t: u16, x: u8)
    ensures { bytes_in bytes.new ≡ statused t x (bytes_in bytes.old) }
{
    if t < 1024 {
        bytes[t as usize] = x;
    }
}

// Whether worker w holds a thread.
pub fn holds_at(bytes: &[u8; 1040], w: usize) -> bool
    ensures { result ≡ holds_in w (bytes_in bytes.now) }
{
    if w < 16 { bytes[1024 + w] != 0 } else { false }
}

pub fn put_holds(bytes: &mut [u8; 1040], w: usize, x: u8)
    ensures { bytes_in bytes.new ≡ holding w x (bytes_in bytes.old) }
{
    if w < 16 {
        bytes[1024 + w] = x;
    }
}

// A setting.
pub fn setting_at(numbers: &[u32; 18], i: usize) -> u32
    ensures { result ≡ setting_at i (numbers_in numbers.now) }
{
    if i < 2 { numbers[i] } else { 0 }
}

pub fn put_setting(numbers: &mut [u32; 18], i: usize, x: u32)
    ensures { numbers_in numbers.new ≡ set_to i x (numbers_in numbers.old) }
{
    put_setting_in(numbers, i, x);
}

pub fn quota_at(numbers: &[u32; 18], w: usize) -> u32
    ensures { result ≡ get_or (numbers_in numbers.now).quotas w 0 }
{
    if w < 16 { numbers[2 + w] } else { 0 }
}

pub fn put_quota(numbers: &mut [u32; 18], w: usize, x: u32)
    ensures { numbers_in numbers.new ≡ quotaed w x (numbers_in numbers.old) }
{
    if w < 16 {
        numbers[2 + w] = x;
    }
}

// Worker w's record, as it stands in its cells.
pub fn worker_at(bytes: &[u8; 1040], words: &[u16; 6163], numbers: &[u32; 18], w: usize) -> Worker
    ensures { result ≡ worker_from (bytes_in bytes.now).holds (words_in words.now).threads (numbers_in numbers.now).quotas w }
{
    Worker {
        holds: holds_at(bytes, w),
        thread: thread_at(words, w),
        quota: quota_at(numbers, w),
    }
}

pub fn amount_at(sums: &[u64; 1027], t: u16) -> u64
    ensures { result ≡ get_or (sums_in sums.now).amounts t 0 }
{
    if t < 1024 { sums[t as usize] } else { 0 }
}

pub fn put_amount(sums: &mut [u64; 1027], t: u16, x: u64)
    ensures { sums_in sums.new ≡ amounted t x (sums_in sums.old) }
{
    if t < 1024 {
        sums[t as usize] = x;
    }
}

pub fn total_at(sums: &[u64; 1027], i: usize) -> u64
    ensures { result ≡ total_at i (sums_in sums.now) }
{
    if i < 3 { sums[1024 + i] } else { 0 }
}

pub fn put_total(sums: &mut [u64; 1027], i: usize, x: u64)
    ensures { sums_in sums.new ≡ totalled i x (sums_in sums.old) }
{
    put_total_in(sums, i, x);
}

// The same of parts whose length is known. One for each width, since each writes by a definition of its own.
fn put_head_in(words: &mut [u16], h: usize, x: u16)
    requires { length words.old ≡ 6163 }
    ensures { words_in words.new ≡ headed h x (words_in words.old) }
{
    if h < 3 {
        words[6160 + h] = x;
    }
}

fn put_setting_in(numbers: &mut [u32], i: usize, x: u32)
    requires { length numbers.old ≡ 18 }
    ensures { numbers_in numbers.new ≡ set_to i x (numbers_in numbers.old) }
{
    if i < 2 {
        numbers[i] = x;
    }
}

fn put_total_in(sums: &mut [u64], i: usize, x: u64)
    requires { length sums.old ≡ 1027 }
    ensures { sums_in sums.new ≡ totalled i x (sums_in sums.old) }
{
    if i < 3 {
        sums[1024 + i] = x;
    }
}
