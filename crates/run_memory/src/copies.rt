// Whole rows copied into the four blocks and out of them, for a run record that goes by value.
ghost use Rattle.std.specs.Prelude.{◌≡◌, ◌+◌, ◌≤◌, length, drop, ltb, min};
ghost use Rattle.std.proofs.Math.Seq.{paste};
ghost use Rattle.table.specs.Sum.{pick};
ghost use Rattle.run_memory.specs.Blocks.{bytes_in, words_in, numbers_in, sums_in};
ghost use Rattle.run_memory.specs.Stands.{workers_from};
ghost use Rattle.run_memory.specs.Places.{statuses, laid_row, worker_bytes, worker_words, worker_numbers, amounts_are, of_workers};

use crate::act::as_number;
use crate::places::worker_at;
use schedule::Worker;

// As many numbers as both have, from the front of the one to the front of the other. By index: the library's copy_from_slice is a call of memmove, which who links an archive would need besides, and
// whose first call takes stack.
pub fn copy_front<T: Copy>(from: &[T], to: &mut [T])
    ensures { to.new ≡ paste to.old 0 from.now (min (length to.old) (length from.now)) }
{
    for i in 0..to.len().min(from.len()) {
        to[i] = from[i];
    }
}

// Row k of the words is this; nothing where there is no such row.
pub fn copy_row(words: &mut [u16; 6163], k: usize, from: &[u16; 1024])
    ensures { words_in words.new ≡ laid_row k from.now (words_in words.old) }
{
    if k < 6 {
        copy(from, 0, words, 1024 * k, 1024);
    }
}

pub fn row_out(words: &[u16; 6163], k: usize, to: &mut [u16; 1024])
    ensures { to.new ≡ pick (ltb k 6) ((words_in words.now).rows k) to.old }
{
    if k < 6 {
        copy(words, 1024 * k, to, 0, 1024);
    }
}

pub fn copy_statuses(bytes: &mut [u8; 1040], from: &[u8; 1024])
    ensures { bytes_in bytes.new ≡ statuses from.now (bytes_in bytes.old) }
{
    copy(from, 0, bytes, 0, 1024);
}

pub fn statuses_out(bytes: &[u8; 1040], to: &mut [u8; 1024])
    ensures { to.new ≡ (bytes_in bytes.now).status }
{
    copy(bytes, 0, to, 0, 1024);
}

pub fn copy_amounts(sums: &mut [u64; 1027], from: &[u64; 1024])
    ensures { sums_in sums.new ≡ amounts_are from.now (sums_in sums.old) }
{
    copy(from, 0, sums, 0, 1024);
}

pub fn amounts_out(sums: &[u64; 1027], to: &mut [u64; 1024])
    ensures { to.new ≡ (sums_in sums.now).amounts }
{
    copy(sums, 0, to, 0, 1024);
}

// The workers' records.
pub fn copy_workers(
    bytes: &mut [u8; 1040],
    words: &mut [u16; 6163],
    numbers: &mut [u32; 18],
    workers: [Worker; 16],
)
    ensures bytes_after { bytes_in bytes.new ≡ worker_bytes workers (bytes_in bytes.old) }
    ensures words_after { words_in words.new ≡ worker_words workers (words_in words.old) }
    ensures numbers_after { numbers_in numbers.new ≡ worker_numbers workers (numbers_in numbers.old) }
{
    copy_workers_in(bytes, words, numbers, workers);
}

pub fn workers_out(bytes: &[u8; 1040], words: &[u16; 6163], numbers: &[u32; 18]) -> [Worker; 16]
    ensures { result ≡ workers_from (bytes_in bytes.now).holds (words_in words.now).threads (numbers_in numbers.now).quotas 0 16 }
{
    let mut workers = [Worker {
        holds: false,
        thread: 0,
        quota: 0,
    }; 16];
    for w in 0..16 {
        workers[w] = worker_at(bytes, words, numbers, w);
    }
    workers
}

// n numbers copied, from a place of one part to a place of the other.
fn copy<T: Copy>(from: &[T], start: usize, to: &mut [T], at: usize, n: usize)
    requires n_in_bounds { start + n ≤ length from.now }
    requires n_in_bounds_2 { at + n ≤ length to.old }
    ensures { to.new ≡ paste to.old at (drop start from.now) n }
{
    copy_front(&from[start..start + n], &mut to[at..at + n]);
}

// The workers' records, on blocks whose lengths are known.
fn copy_workers_in(bytes: &mut [u8], words: &mut [u16], numbers: &mut [u32], workers: [Worker; 16])
    requires bytes_len { length bytes.old ≡ 1040 }
    requires words_len { length words.old ≡ 6163 }
    requires numbers_len { length numbers.old ≡ 18 }
    ensures bytes_after { bytes.new ≡ paste bytes.old 1024 (of_workers (λ x. pick x.holds 1 0) workers) 16 }
    ensures words_after { words.new ≡ paste words.old 6144 (of_workers (λ x. x.thread) workers) 16 }
    ensures numbers_after { numbers.new ≡ paste numbers.old 2 (of_workers (λ x. x.quota) workers) 16 }
{
    for w in 0..16 {
        let worker = workers[w];
        bytes[1024 + w] = as_number(worker.holds);
        words[6144 + w] = worker.thread;
        numbers[2 + w] = worker.quota;
    }
}
