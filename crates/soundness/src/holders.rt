// Clauses on who holds which thread: held threads, workers, the set of busy workers.
ghost use Rattle.std.specs.Prelude.{◌≡◌, ◌&&◌, ◌≤◌, get_or, ltb, leb, eqb};
ghost use Rattle.table.specs.Sum.{pick};
ghost use Rattle.schedule.specs.Record.{set_of};
ghost use Rattle.schedule.specs.Sound.{one_holder, worker_right};
ghost use Rattle.order.specs.Words.{all_below};
ghost use Rattle.soundness.specs.Code.Checks.{holders_wanted};

use schedule::Worker;
use schedule::statuses::HELD;

fn holders_wanted(status: u8) -> u8
    ensures { result ≡ holders_wanted status }
{
    if status == HELD { 1 } else { 0 }
}

// The counts are those of the statuses.
fn counts_right(n: usize, status: &[u8; 1024], counts: &[u8; 1024]) -> bool
    requires { n ≤ 1024 }
    ensures { result ≡ all_below (λ t. eqb (get_or counts.now t 0) (holders_wanted (get_or status.now t 0))) n }
{
    for t in 0..n {
        if counts[t] != holders_wanted(status[t]) {
            return false;
        }
    }
    true
}

// "every held thread has one worker"
pub(crate) fn one_holder_each(n: usize, status: &[u8; 1024], workers: [Worker; 16]) -> bool
    requires { n ≤ 1024 }
    ensures { result ≡ all_below (one_holder status.now workers) n }
{
    let mut counts = [0u8; 1024];
    for x in workers {
        let t = x.thread as usize;
        if x.holds {
            if t < 1024 {
                counts[t] += 1;
            }
        }
    }
    counts_right(n, status, &counts)
}

fn worker_right(n: usize, p: u8, quota: u32, w: usize, x: Worker) -> bool
    ensures { result ≡ pick x.holds (ltb w p && (ltb x.thread n && leb x.quota quota)) (eqb x.thread 0 && eqb x.quota 0) }
{
    let t = x.thread as usize;
    if x.holds {
        w < p as usize && (t < n && x.quota <= quota)
    } else {
        t == 0 && x.quota == 0
    }
}

// ".. below p, no other worker holds anything"; "quotas are at most K"
pub(crate) fn workers_right(n: usize, p: u8, quota: u32, workers: [Worker; 16]) -> bool
    ensures { result ≡ all_below (worker_right n p quota workers) 16 }
{
    for (w, x) in workers.iter().enumerate() {
        if !worker_right(n, p, quota, w, *x) {
            return false;
        }
    }
    true
}

// "and the set agrees"
pub(crate) fn busy_right(busy: u16, workers: [Worker; 16]) -> bool
    ensures { result ≡ eqb busy (set_of workers) }
{
    let mut set: u32 = 0;
    for w in (0..16).rev() {
        if workers[w].holds {
            set = 1 + 2 * set;
        } else {
            set = 2 * set;
        }
    }
    busy as u32 == set
}
