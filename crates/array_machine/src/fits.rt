// Whether what an action would write fits into its place, by the action's kind.
ghost use Rattle.std.specs.Prelude.{◌≡◌, ◌&&◌, ◌+◌, leb, ltb};
ghost use Rattle.array_machine.specs.Turn.{next_fits, amount_fits};

// The sum of two amounts has 64 bits.
fn sum_fits(a: u64, b: u64) -> bool
    ensures { result ≡ amount_fits (a + b) }
{
    a <= u64::MAX - b
}

// The number after an action's has 16 bits.
pub fn next_fits(a: u16) -> bool
    ensures { result ≡ next_fits a }
{
    a != u16::MAX
}

// What an alloc within the quota writes has its room.
pub fn alloc_fits(a: u16, held: u64, own: u64, x: u64) -> bool
    ensures { result ≡ (next_fits a && (amount_fits (held + x) && amount_fits (own + x))) }
{
    next_fits(a) && (sum_fits(held, x) && sum_fits(own, x))
}

// A free takes no more than is held.
pub fn free_fits(a: u16, held: u64, own: u64, x: u64) -> bool
    ensures { result ≡ (next_fits a && (leb x held && leb x own)) }
{
    next_fits(a) && (x <= held && x <= own)
}

// The forked thread is one of the arrays'.
pub fn fork_fits(a: u16, x: usize) -> bool
    ensures { result ≡ (next_fits a && ltb x 1024) }
{
    next_fits(a) && x < 1024
}

// The sum that a join makes has its room.
pub fn join_fits(a: u16, own: u64, child: u64) -> bool
    ensures { result ≡ (next_fits a && amount_fits (own + child)) }
{
    next_fits(a) && sum_fits(own, child)
}
