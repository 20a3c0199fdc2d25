// The check of a program's input.
ghost use Rattle.std.specs.Prelude.{◌≡◌};
ghost use Rattle.listing.specs.Listing.{input_wrong, wrong_input};
ghost use Rattle.text.specs.Puts.{Puts};

use lines::put_refused;
use table::read::word;

// Check 33.
pub fn input_wrong(input: &[u8]) -> bool
    ensures { result ≡ input_wrong input.now }
{
    if input.len() < 6 {
        return true;
    }
    let n = word(input, 4);
    if 4096 < n {
        return true;
    }
    input.len() < 6 + n
}

// Its line, the only one.
pub fn put_wrong(out: &mut [u8]) -> usize
    ensures { Puts out.old 0 out.new result wrong_input 64 }
{
    put_refused(out, 0, 33)
}
