// The machine on arrays and links: its definitions and laws (specs/, proofs/), and the small functions that a turn and its preview (crates/run_memory) share.
#![tactic(auto)]

ghost use Rattle.std.specs.Prelude.{◌≡◌};
ghost use Rattle.schedule.specs.Machine.{drawn as drawn_of};
ghost use Rattle.array_machine.specs.Counted.{room_for};

pub mod fits;
pub mod release;

// The amounts that a turn moves, and the leftmost threads of the list and of the second list.
#[derive(Drop)]
pub struct Totals {
    pub leftmost: u16,
    pub first: u16,
    pub held: u64,
    pub highest: u64,
}

// What a turn moves besides the arrays and its worker's record.
#[derive(Drop)]
pub struct Moved {
    pub busy: u16,
    pub totals: Totals,
    pub turns: u64,
}

// One turn more can be counted, and the set has room for worker w.
pub fn room_for(turns: u64, busy: u16, holds: bool, w: usize) -> bool
    ensures { result ≡ room_for turns busy holds w }
{
    if turns == u64::MAX {
        return false;
    }
    if 16 <= w {
        return false;
    }
    if holds {
        return true;
    }
    let bit: u16 = 1 << w;
    busy <= u16::MAX - bit
}

// What an alloc of x draws from the quota: above K nothing (N6).
pub fn drawn(quota: u32, x: u32) -> u32
    ensures { result ≡ drawn_of quota x }
{
    if quota < x { 0 } else { x }
}
