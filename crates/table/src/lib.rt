// Job tables: what each byte says, as document 01 has it. The checks that accept a table or refuse it are a crate of their own, `checks`.
#![tactic(auto)]

pub mod front;
pub mod kinds;
pub mod read;

ghost use Rattle.std.specs.Prelude.{◌≡◌};
ghost use Rattle.table.specs.Checks.{outside as is_outside};
ghost use Rattle.table.specs.Pass.{refusal};

// What an accepted table tells: threads n, actions m, serial peak S1, depth D and nested thread levels N.
#[derive(Clone, Copy, PartialEq, Eq, Debug)]
pub struct Facts {
    pub threads: u16,
    pub actions: u16,
    pub peak: u64,
    pub depth: u16,
    pub nested: u16,
}

// The number of the check that applied, and its place.
#[derive(Clone, Copy, PartialEq, Eq, Debug)]
pub struct Refusal {
    pub number: u8,
    pub place: u16,
}

impl Refusal {
    pub fn new(number: u8, place: u16) -> Refusal
        ensures { result ≡ refusal number place }
    {
        Refusal { number, place }
    }
}

// Whether x is below the low bound or above the high one.
pub fn outside(low: usize, high: usize, x: usize) -> bool
    ensures { result ≡ is_outside low high x }
{
    !(low..=high).contains(&x)
}
