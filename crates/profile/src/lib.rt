#![tactic(auto)]

// The profile: records of 32 bytes, and the numbers 1 to 6 with which it is declined.
ghost use Rattle.std.specs.Prelude.{◌≡◌};
ghost use Rattle.profile.specs.Profile.{verdict, size_ok};
ghost use Rattle.profile.specs.Refusal.{number_of, verdict_of};

mod ends;
mod fields;
mod limits;
mod order;
pub mod record;

// Why a profile is declined: the causes by their numbers.
#[derive(Clone, Copy, PartialEq, Eq)]
pub enum Refusal {
    // The length is 0, no multiple of 32, or above 65,536.
    Size = 1,
    // A field is outside the ranges of its kind.
    Fields,
    // Kinds, banks or numbers are out of order.
    Order,
    // There is no bank.
    Banks,
    // There are more scenes, transports or buttons than the bridge has room for.
    Limits,
    // An end of a range is not finite.
    Ends,
}

impl Refusal {
    // A method and no `From`: contracts say `number_of`, and a call reads the same.
    pub fn number(self) -> u8
        ensures { result ≡ number_of self }
    {
        self as u8
    }
}

// The number of a refusal, 0 if the profile is accepted.
pub fn number(verdict: Result<(), Refusal>) -> u8
    ensures { result ≡ verdict_of verdict }
{
    verdict.map_or_else(Refusal::number, |_| 0)
}

#[tactic(auto, unfolding(base::specs::Range::every))]
fn size_ok(profile: &[u8]) -> bool
    ensures { result ≡ size_ok profile.now }
{
    let n = profile.len();
    (0 < n) & (n <= 65536) & (n % 32 == 0)
}

// The lowest cause to decline the profile, if there is one.
#[tactic(auto, unfolding(crate::specs::Profile::verdict))]
pub fn examine(profile: &[u8]) -> Result<(), Refusal>
    ensures { verdict_of result ≡ verdict profile.now }
{
    if !size_ok(profile) {
        return Err(Refusal::Size);
    }
    if !fields::fields_ok(profile) {
        return Err(Refusal::Fields);
    }
    order::examine(profile)?;
    if !limits::limits_ok(profile) {
        return Err(Refusal::Limits);
    }
    if !ends::finite_ok(profile) {
        return Err(Refusal::Ends);
    }
    Ok(())
}
