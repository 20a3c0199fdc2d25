// Numbers of 24 and 32 bits at the front of what a program reads: little-endian, and zeros past its end.
ghost use Rattle.std.specs.Prelude.{◌≡◌};
ghost use Rattle.table.specs.Format.{u24_at, u32_at};

use crate::read::{byte, word};

// 24 bits.
pub fn three_bytes(s: &[u8], i: usize) -> u32
    ensures { result ≡ u24_at s.now i }
{
    if s.len() <= i {
        return 0;
    }
    word(s, i) as u32 + 65536 * (byte(s, i + 2) as u32)
}

// 32 bits.
pub fn four_bytes(s: &[u8], i: usize) -> u32
    ensures { result ≡ u32_at s.now i }
{
    if s.len() <= i {
        return 0;
    }
    word(s, i) as u32 + 65536 * (word(s, i + 2) as u32)
}
