// Why an event is refused.
ghost use Rattle.std.specs.Prelude.{◌≡◌};
ghost use Rattle.delivery.specs.Refusals.{number_of};

// The causes in the order of document 01's numbers: the lowest that is there decides.
#[derive(Clone, Copy)]
pub enum Refusal {
    // 1 to 6: the profile is not accepted.
    Profile(profile::Refusal),
    // 8: the session is not well shaped.
    Session,
    // 9: a lent buffer is too short.
    Buffers,
    // 10: the event's bytes are no event.
    Event,
    // 11: more targets would be silenced than there is room for.
    Silenced,
    // 12 and 13: a turn that does not fit.
    Turn(hands::encoders::Declined),
    // 14: an answer is cut short or does not fit its call.
    Answer,
}

impl Refusal {
    // A method and no `From`: contracts say `number_of`, and a call reads the same.
    pub fn number(self) -> u8
        ensures { result ≡ number_of self }
    {
        match self {
            Refusal::Profile(why) => why.number(),
            Refusal::Session => 8,
            Refusal::Buffers => 9,
            Refusal::Event => 10,
            Refusal::Silenced => 11,
            Refusal::Turn(why) => why.number(),
            Refusal::Answer => 14,
        }
    }
}
