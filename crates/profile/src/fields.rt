#![tactic(auto, unfolding(base::specs::Range::every, crate::specs::Profile::record_ok, crate::specs::Profile::ok_as))]

// Number 2: the fields of every record are in the ranges of its kind, and the bytes that the kind does not use are 0.
//
// The tests are joined by `&`, which looks at all of them: a record that is refused is rare, and the code has no branches.
ghost use Rattle.std.specs.Prelude.{◌≡◌, ◌+◌, ◌≤◌};
ghost use Rattle.profile.specs.Profile.{zeros, settings_ok, bank_ok, control_ok, scene_ok, transport_ok, button_ok, record_ok, fields_ok};

use crate::record::{Record, count};

impl Record<'_> {
    // n bytes, from byte a on, are 0.
    fn is_zeros(self, a: usize, n: usize) -> bool
        requires { a + n ≤ 32 }
        ensures { result ≡ zeros self.entry.profile.now self.entry.k a n }
    {
        let from = self.k * 32 + a;
        self.profile[from..from + n]
            .iter()
            .fold(true, |ok, b| ok & (*b == 0))
    }

    fn settings_ok(self) -> bool
        ensures { result ≡ settings_ok self.entry.profile.now self.entry.k }
    {
        (self.part() == 0) & (self.byte(2) <= 1) & (self.byte(3) <= 1) & self.is_zeros(4, 28)
    }

    fn bank_ok(self) -> bool
        ensures { result ≡ bank_ok self.entry.profile.now self.entry.k }
    {
        let driver = self.half(6);
        (self.part() <= 15)
            & self.is_zeros(2, 2)
            & (self.half(4) < 65535)
            & ((driver <= 15) | (driver == 65535))
            & (self.byte(10) <= 2)
            & (self.byte(11) <= 1)
            & self.is_zeros(12, 20)
    }

    // A fader, whose number goes to 16, or an encoder, to 8.
    fn control_ok(self, top: u8) -> bool
        ensures { result ≡ control_ok self.entry.profile.now self.entry.k top }
    {
        let bank = self.part();
        let number = self.number();
        ((bank <= 15) | (bank == 255))
            & (1 <= number)
            & (number <= top)
            & (self.byte(3) <= 1)
            & (self.half(4) <= 15)
            & (self.half(8) < 65535)
            & (self.half(10) < 65535)
            & self.is_zeros(14, 2)
    }

    fn scene_ok(self) -> bool
        ensures { result ≡ scene_ok self.entry.profile.now self.entry.k }
    {
        (self.part() <= 15) & self.is_zeros(2, 2) & (self.half(4) < 65535) & self.is_zeros(6, 26)
    }

    fn transport_ok(self) -> bool
        ensures { result ≡ transport_ok self.entry.profile.now self.entry.k }
    {
        let bank = self.part();
        ((bank <= 15) | (bank == 255))
            & (self.number() <= 15)
            & self.is_zeros(3, 1)
            & (self.half(4) <= 15)
            & (self.half(8) < 65535)
            & self.is_zeros(10, 22)
    }

    fn button_ok(self) -> bool
        ensures { result ≡ button_ok self.entry.profile.now self.entry.k }
    {
        (self.part() <= 15)
            & (self.number() <= 15)
            & self.is_zeros(3, 1)
            & (self.half(4) < 65535)
            & self.is_zeros(6, 26)
    }

    fn fields_ok(self) -> bool
        ensures { result ≡ record_ok self.entry.profile.now self.entry.k }
    {
        // One match over the kind: a table of functions would be no plainer.
        match self.kind() {
            0 => self.settings_ok(),
            1 => self.bank_ok(),
            2 => self.control_ok(16),
            3 => self.control_ok(8),
            4 => self.scene_ok(),
            5 => self.transport_ok(),
            6 => self.button_ok(),
            _ => false,
        }
    }
}

pub fn fields_ok(profile: &[u8]) -> bool
    ensures { result ≡ fields_ok profile.now }
{
    (0..count(profile)).all(|k| Record::at(profile, k).fields_ok())
}
