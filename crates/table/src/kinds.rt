// "Kinds: 0 end, 1 work ..; 2 alloc, 3 free ..; 4 fork, 5 join ..".
ghost use Rattle.std.specs.Prelude.{◌≡◌};
ghost use Rattle.table.specs.Format.{kind_of, code_of};

// What an action is, by the code of 8 bits that a table has for it.
#[derive(Clone, Copy, PartialEq, Eq, Debug)]
pub enum Kind {
    End,
    Work,
    Alloc,
    Free,
    Fork,
    Join,
    Unknown,
}

impl From<u8> for Kind {
    ghost from_gives = { λ code kind. kind ≡ kind_of code };

    #[tactic(auto, unfolding(crate::specs::Format::kind_of))]
    fn from(code: u8) -> Self
        ensures { result ≡ kind_of code }
    {
        match code {
            0 => Kind::End,
            1 => Kind::Work,
            2 => Kind::Alloc,
            3 => Kind::Free,
            4 => Kind::Fork,
            5 => Kind::Join,
            6..=255 => Kind::Unknown,
        }
    }
}

impl Kind {
    // Its code; 6 for a kind that is none of the six.
    #[tactic(auto, unfolding(crate::specs::Format::code_of))]
    pub fn code(self) -> u8
        ensures { result ≡ code_of self }
    {
        match self {
            Kind::End => 0,
            Kind::Work => 1,
            Kind::Alloc => 2,
            Kind::Free => 3,
            Kind::Fork => 4,
            Kind::Join => 5,
            Kind::Unknown => 6,
        }
    }
}

pub const END: u8 = 0;

pub const ALLOC: u8 = 2;

pub const FREE: u8 = 3;

pub const FORK: u8 = 4;

pub const JOIN: u8 = 5;
