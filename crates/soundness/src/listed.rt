// The clause that the list follows from what is done.
ghost use Rattle.std.specs.Prelude.{◌≡◌, true, false, not, ◌&&◌, ℕ, ◌≤◌, length, get_or, take, replicate, ltb, eqb};
ghost use Rattle.schedule.specs.Machine.{unborn, ended};
ghost use Rattle.schedule.specs.Sound.{live_in, list_follows};
ghost use Rattle.order.specs.Words.{all_below, all_in, member, agree};

use schedule::statuses::{ENDED, UNBORN};

// Marks the threads in the list, if all are below n.
fn mark_listed(n: usize, list: &[u16; 1024], len: usize, marks: &mut [bool; 1024]) -> bool
    requires n_bound { (n ≤ 1024) × (len ≤ 1024) × (length list.now ≡ 1024) }
    requires marks_value { marks.old ≡ replicate 1024 false }
    ensures value { result ≡ all_in (λ t. ltb t n) (take len list.now) }
    ensures false_after { result ≡ true → (t : ℕ) → get_or marks.new t false ≡ member t (take len list.now) }
{
    let threads = n as u16;
    for i in 0..len {
        let t = list[i];
        if threads <= t {
            return false;
        }
        marks[t as usize] = true;
    }
    true
}

fn is_live(status: u8) -> bool
    ensures { result ≡ (not (eqb status unborn) && not (eqb status ended)) }
{
    status != UNBORN && status != ENDED
}

// The marked threads are the live ones.
fn marks_right(n: usize, status: &[u8; 1024], marks: &[bool; 1024]) -> bool
    requires { n ≤ 1024 }
    ensures { result ≡ all_below (λ t. agree (get_or marks.now t false) (live_in status.now t)) n }
{
    for t in 0..n {
        if marks[t] != is_live(status[t]) {
            return false;
        }
    }
    true
}

// ".. and list follow from what is done": the live threads are in the list and no others.
pub(crate) fn list_follows(n: usize, status: &[u8; 1024], list: &[u16; 1024], len: usize) -> bool
    requires { (n ≤ 1024) × (len ≤ 1024) × (length list.now ≡ 1024) }
    ensures { result ≡ (all_below (list_follows status.now (take len list.now)) n && all_in (λ t. ltb t n) (take len list.now)) }
{
    let mut marks = [false; 1024];
    if !mark_listed(n, list, len, &mut marks) {
        return false;
    }
    marks_right(n, status, &marks)
}
