// The kinds of call.
ghost use Rattle.std.specs.Prelude.{◌≡◌};
ghost use Rattle.drivers.specs.Kinds.{number_of, Decodes};

// By its place a kind is document 01's number.
#[derive(Clone, Copy, PartialEq, Eq)]
pub enum Kind {
    Open = 0,
    Read,
    Write,
    Toggle,
    Command,
    Playing,
    Scenes,
    Current,
    Load,
    Live,
}

// A number that no kind of call has.
#[derive(Clone, Copy, PartialEq, Eq)]
pub struct UnknownKind(pub u8);

impl Kind {
    // A method and no `From`: contracts say `number_of`, and a call reads the same.
    #[tactic(auto, using(crate::proofs::Laws::kind_number))]
    pub fn number(self) -> u8
        ensures { result ≡ number_of self }
    {
        self as u8
    }
}

impl TryFrom<u8> for Kind {
    type Error = UnknownKind;

    ghost try_from_gives = { Decodes };

    fn try_from(number: u8) -> Result<Self, UnknownKind> {
        match number {
            0 => Ok(Kind::Open),
            1 => Ok(Kind::Read),
            2 => Ok(Kind::Write),
            3 => Ok(Kind::Toggle),
            4 => Ok(Kind::Command),
            5 => Ok(Kind::Playing),
            6 => Ok(Kind::Scenes),
            7 => Ok(Kind::Current),
            8 => Ok(Kind::Load),
            9 => Ok(Kind::Live),
            _ => Err(UnknownKind(number)),
        }
    }
}
