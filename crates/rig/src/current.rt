// The current bank. A file of its own, since the types state what is known of them.
ghost use Rattle.std.specs.Prelude.{◌≡◌, ◌≤◌, true};
ghost use Rattle.profile.specs.Profile.{verdict};

use session::Strips;

// The current bank over a profile, with its own faders where it is a live one. A list that is not known may have any count.
#[derive(Clone, Copy)]
pub struct Current<'a> {
    pub profile: &'a [u8],
    pub bank: u8,
    pub strips: &'a Strips,
    pub ghost few: { strips.now.known ≡ true → strips.now.count ≤ 8 },
}

// The same, over a profile that is accepted. That the bank is below 16 is asked for where scenes are paged and loaded: held here, it would ask more of those that
// look up a device or refresh a live list, which take any bank.
#[derive(Clone, Copy)]
pub struct Accepted<'a> {
    pub here: Current<'a>,
    pub ghost accepted: { verdict here.profile.now ≡ 0 },
}
