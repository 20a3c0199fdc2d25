// What is read from the numbers that C lends, before a run in them is tested: p, and the workers' records, which stand in arrays of their own.
ghost use Rattle.std.specs.Prelude.{◌≡◌, ◌<◌, min};
ghost use Rattle.run_memory.specs.Memory.{worker_from};
ghost use Rattle.run_memory.specs.Stands.{truths, workers_from};

use schedule::Worker;

// p in a byte. C would cut a number above 255 to its low byte, and 258 would be taken for 2: p is taken with 32 bits, and 17 stands for all that are too large.
pub fn workers(p: u32) -> u8
    ensures { result ≡ min p 17 }
{
    if p < 17 { p as u8 } else { 17 }
}

// Every worker's truth value is 0 or 1.
pub fn truths_right(holds: &[u8; 16]) -> bool
    ensures { result ≡ truths holds.now }
{
    for w in 0..16 {
        if 1 < holds[w] {
            return false;
        }
    }
    true
}

// The record of worker k. By index, here and below: three arrays that C lends are read at one place.
fn worker_at(holds: &[u8; 16], threads: &[u16; 16], quotas: &[u32; 16], k: usize) -> Worker
    requires { k < 16 }
    ensures { result ≡ worker_from holds.now threads.now quotas.now k }
{
    Worker {
        holds: holds[k] != 0,
        thread: threads[k],
        quota: quotas[k],
    }
}

// The workers' records.
pub fn workers_at(holds: &[u8; 16], threads: &[u16; 16], quotas: &[u32; 16]) -> [Worker; 16]
    ensures { result ≡ workers_from holds.now threads.now quotas.now 0 16 }
{
    let mut records = [Worker {
        holds: false,
        thread: 0,
        quota: 0,
    }; 16];
    for w in 0..16 {
        records[w] = worker_at(holds, threads, quotas, w);
    }
    records
}
