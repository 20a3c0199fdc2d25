// Turns in rounds, without a division for each.
ghost use Rattle.std.specs.Prelude.{◌≡◌, ◌+◌, ltb};
ghost use Rattle.table.specs.Sum.{pick};

// Whose turn comes after worker w's, of p that take turns in rounds; worker 0's after a number that is none of theirs.
pub fn following(p: u32, w: u32) -> u32
    ensures { result ≡ pick (ltb (w + 1) p) (w + 1) 0 }
{
    if p <= w {
        return 0;
    }
    let next = w + 1;
    if next < p { next } else { 0 }
}
