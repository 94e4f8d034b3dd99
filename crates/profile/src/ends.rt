// Number 6: both ends of every range are finite.
ghost use Rattle.std.specs.Prelude.{◌≡◌, true, ◌+◌, ◌≤◌, length};
ghost use Rattle.std.specs.Float.{binary64};
ghost use Rattle.std.specs.Float.Ieee.{of_bits};
ghost use Rattle.std.specs.Float.Ieee.Scale.{finite};
ghost use Rattle.base.specs.Words.{le64};
ghost use Rattle.profile.specs.Profile.{double_at, order_ok, ends_finite, finite_ok};

use crate::order::is_control;
use crate::record::{Record, count};

// The f64 whose pattern is the eight bytes from `at` on is finite: the field of its exponent, in the highest two bytes, is not all ones.
// `is_finite` of the number takes longer: it is read with each NaN made the one NaN.
fn is_finite(profile: &[u8], at: usize) -> bool
    requires { at + 8 ≤ length profile.now }
    ensures { result ≡ finite (of_bits binary64 (le64 profile.now at)) }
{
    base::read_u16(profile, at + 6) / 16 % 2048 != 2047
}

impl Record<'_> {
    fn end_finite(self, o: usize) -> bool
        requires { o ≤ 24 }
        ensures { result ≡ finite (double_at self.entry.profile.now self.entry.k o) }
    {
        is_finite(self.profile, self.k * 32 + o)
    }

    #[tactic(auto, unfolding(crate::specs::Profile::ends_finite))]
    fn ends_finite(self) -> bool
        ensures { result ≡ ends_finite self.entry.profile.now self.entry.k }
    {
        !is_control(self.kind()) || self.end_finite(16) & self.end_finite(24)
    }
}

// As kinds never fall, the first record of kind 4 or more ends the faders and encoders.
pub fn finite_ok(profile: &[u8]) -> bool
    requires { order_ok profile.now ≡ true }
    ensures { result ≡ finite_ok profile.now }
{
    (0..count(profile))
        .take_while(|k| Record::at(profile, *k).kind() <= 3)
        .all(|k| Record::at(profile, k).ends_finite())
}
