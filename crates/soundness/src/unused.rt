// The parts of a record not in use: threads from n on, table bytes past the length.
ghost use Rattle.std.specs.Prelude.{◌≡◌, ◌||◌, length, take, ltb};
ghost use Rattle.order.specs.Words.{filled, all_below, same_list};
ghost use Rattle.schedule.specs.Sound.{unused};

use schedule::statuses::UNBORN;

// "Threads from n on are unborn with next action 0"
pub(crate) fn unused_right(n: usize, next: &[u16], status: &[u8]) -> bool
    requires { (length next.now ≡ 1024) × (length status.now ≡ 1024) }
    ensures { result ≡ all_below (λ t. ltb t n || unused next.now status.now t) 1024 }
{
    for t in n..1024 {
        if status[t] != UNBORN {
            return false;
        }
        if next[t] != 0 {
            return false;
        }
    }
    true
}

// "Table bytes past its length .. are 0"; with none in use, all are, as the blank record's statuses.
pub fn bytes_rest(bytes: &[u8], used: usize) -> bool
    ensures { result ≡ same_list bytes.now (filled (length bytes.now) (take used bytes.now)) }
{
    // By index: of skip and all the proof did not close.
    for i in used..bytes.len() {
        if bytes[i] != 0 {
            return false;
        }
    }
    true
}
