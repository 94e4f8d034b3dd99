// The faders of live banks.
#![tactic(auto, unfolding(crate::specs::Session::strips_at, crate::specs::Session::strips_for, crate::specs::Session::seen_strips, crate::specs::Session::strip_dest, crate::specs::Session::strip_of, crate::specs::Session::same_strip))]

ghost use Rattle.std.specs.Prelude.{◌≡◌, true, [], ◌≤◌, ◌<◌, replicate, find};
ghost use Rattle.std.specs.Prelude.{Some};
ghost use Rattle.session.specs.Session.{no_strip, no_strips, strips_at, strips_for, seen_strips, strips_or, is_strip, strip_at, strip_dest, found_strip, strip_of, strips_of, on_surface, same_strip, same_at, same_strips, label_of};

use crate::{Live, Strip, Strips};
use drivers::LiveFader;
use lookup::Destination;

impl Strip {
    fn none() -> Strip
        ensures { result ≡ no_strip }
    {
        Strip {
            number: 0,
            driver: 0,
            target: 0,
            label: 0,
            group: 0,
            mute: 0,
        }
    }

    fn handed_over(driver: u8, f: LiveFader) -> Strip
        ensures { result ≡ strip_of driver f }
    {
        Strip {
            number: f.number,
            driver,
            target: f.target,
            label: label_of(f),
            group: f.group,
            mute: f.mute,
        }
    }

    // The driver says nothing of takeover and range: a live fader has both in full.
    pub fn destination(self) -> Destination
        ensures { result ≡ strip_dest self }
    {
        Destination {
            driver: self.driver,
            target: self.target,
            label: self.label,
            group: self.group,
            mute: self.mute,
            takeover: true,
            low: 0.0,
            high: 1.0,
        }
    }

    // What the number is wired to is the same. A derived == would compare the numbers too.
    fn same(self, other: Strip) -> bool
        ensures { result ≡ same_strip self other }
    {
        (self.driver == other.driver)
            & ((self.target == other.target)
                & ((self.label == other.label)
                    & ((self.group == other.group) & (self.mute == other.mute))))
    }
}

// The label of a live fader is its target where it has none of its own.
fn label_of(f: LiveFader) -> u16
    ensures { result ≡ label_of f }
{
    if f.label == 0 { f.target } else { f.label }
}

fn on_surface(f: LiveFader) -> bool
    ensures { result ≡ on_surface f }
{
    (1 <= f.number) & (f.number <= 8)
}

fn find_strip(strips: &[Strip], number: u8) -> Option<Strip>
    ensures { result ≡ find (is_strip number) strips.now }
{
    strips.iter().copied().find(|s| s.number == number)
}

impl Strips {
    // A bank whose driver was not asked.
    fn unasked() -> Strips
        ensures { result ≡ no_strips }
    {
        Strips {
            known: false,
            list: [Strip::none(); 8],
            count: 0,
        }
    }

    // A bank whose driver has no faders, or refused to say.
    pub fn none() -> Strips
        ensures result_value { seen_strips result ≡ Some [] }
        ensures count_bound { result.count ≤ 8 }
    {
        Strips {
            known: true,
            ..Strips::unasked()
        }
    }

    // The faders that a driver handed over: those of the surface, at most eight.
    pub fn handed_over(driver: u8, faders: &[LiveFader]) -> Strips
        ensures result_value { seen_strips result ≡ Some (strips_of driver faders.now) }
        ensures count_bound { result.count ≤ 8 }
    {
        let mut t = Strips::none();
        for f in faders {
            if on_surface(*f) & (t.count < 8) {
                t.list[t.count] = Strip::handed_over(driver, *f);
                t.count += 1;
            }
        }
        t
    }

    // The bank's faders, none while it is not known: then its list is not looked at.
    pub fn as_slice(&self) -> &[Strip]
        requires { self.now.known ≡ true → self.now.count ≤ 8 }
        ensures { result.now ≡ strips_or (seen_strips self.now) }
    {
        if self.known {
            &self.list[..self.count]
        } else {
            &[]
        }
    }

    // The number's strip, if the bank is known to have one.
    #[tactic(auto, using(crate::proofs::Laws::strip_by_find))]
    pub fn numbered(&self, number: u8) -> Option<Strip>
        requires { self.now.known ≡ true → self.now.count ≤ 8 }
        ensures { result ≡ strip_at number (strips_or (seen_strips self.now)) }
    {
        find_strip(self.as_slice(), number)
    }

    // What the live bank wires the fader to.
    pub fn destination(&self, number: u8) -> Option<Destination>
        requires { self.now.known ≡ true → self.now.count ≤ 8 }
        ensures { result ≡ found_strip (strip_at number (strips_or (seen_strips self.now))) }
    {
        self.numbered(number).map(Strip::destination)
    }

    // The number's strip is the same in both lists, or in neither.
    fn same_at(&self, other: &Strips, number: u8) -> bool
        requires self_few { self.now.known ≡ true → self.now.count ≤ 8 }
        requires other_few { other.now.known ≡ true → other.now.count ≤ 8 }
        ensures { result ≡ same_at (strip_at number (strips_or (seen_strips self.now))) (strip_at number (strips_or (seen_strips other.now))) }
    {
        match (self.numbered(number), other.numbered(number)) {
            (Some(a), Some(b)) => a.same(b),
            (None, None) => true,
            _ => false,
        }
    }

    // Two lists are the same if they are so at each number, in whatever order they stand.
    pub fn same(&self, other: &Strips) -> bool
        requires self_few { self.now.known ≡ true → self.now.count ≤ 8 }
        requires other_few { other.now.known ≡ true → other.now.count ≤ 8 }
        ensures { result ≡ same_strips (strips_or (seen_strips self.now)) (strips_or (seen_strips other.now)) }
    {
        (0..8).all(|i| self.same_at(other, i + 1))
    }
}

impl Live {
    // No driver was asked.
    pub fn unasked() -> Live
        ensures { result ≡ record { banks = replicate 16 no_strips } }
    {
        Live {
            banks: [Strips::unasked(); 16],
        }
    }

    pub fn strips(&self, bank: u8) -> &Strips
        requires { bank < 16 }
        ensures { result.now ≡ strips_at bank self.now }
    {
        &self.banks[usize::from(bank)]
    }

    // The bank's strips become these.
    pub fn set(&mut self, bank: u8, strips: Strips)
        requires { bank < 16 }
        ensures { self.new ≡ strips_for bank strips self.old }
    {
        self.banks[usize::from(bank)] = strips;
    }
}
