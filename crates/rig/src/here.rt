// The faders of the current bank and of the globals, and the bank's driver.
ghost use Rattle.std.specs.Prelude.{◌≡◌};
ghost use Rattle.lookup.specs.Lookup.{named};
ghost use Rattle.definition.specs.Rig.{own_fader, destination as destination_of, bank_driver, device as device_of, first_target};
ghost use Rattle.rig.specs.Seen.{here_in, rig_in, target_if};

use crate::{Accepted, Current};
use lookup::{Destination, Drivers};

// The target of what a fader is wired to, if that is on the driver.
fn target_on(to: &Option<Destination>, driver: u8) -> Option<u16>
    ensures { result ≡ target_if driver to.now }
{
    match to {
        Some(d) if d.driver == driver => Some(d.target),
        _ => None,
    }
}

impl Current<'_> {
    // What the current bank itself wires the fader to: a live bank's are the ones its driver handed over last.
    #[tactic(auto, unfolding(definition::specs::Rig::own_fader), using(lookup::proofs::NamedLaws::by_none, lookup::proofs::NamedLaws::by_some))]
    pub fn own_fader(&self, number: u8) -> Option<Destination>
        ensures { result ≡ own_fader (here_in self.now) number }
    {
        match lookup::live_of(self.profile, self.bank) {
            None => lookup::fader(self.profile, self.bank, number),
            Some(_) => self.strips.destination(number),
        }
    }

    // A global fader wins over the bank's: it is the one that is always there, whichever bank is selected.
    // A `match` and no `or_else`: the proof over its closure did not close.
    #[tactic(auto, unfolding(definition::specs::Rig::destination))]
    pub fn destination(&self, number: u8) -> Option<Destination>
        ensures { result ≡ destination_of (rig_in self.now) number }
    {
        match lookup::fader(self.profile, lookup::GLOBALS, number) {
            Some(d) => Some(d),
            None => self.own_fader(number),
        }
    }

    // ── the bank's driver ──

    // The driver a bank's own buttons belong to: the one most of its faders use.
    pub fn bank_driver(&self) -> Option<u8>
        ensures { result ≡ named (bank_driver (here_in self.now)) }
    {
        let mut drivers = Drivers::none();
        for n in 0..16 {
            if let Some(d) = self.own_fader(n + 1) {
                drivers.push(d.driver);
            }
        }
        lookup::most_common(drivers.as_slice())
    }

    // The target of the bank's first fader on the driver. A loop and no `find_map`: the proof over its closure did not close.
    pub fn first_target(&self, driver: u8) -> Option<u16>
        ensures { result ≡ first_target (here_in self.now) driver 16 }
    {
        for n in 0..16 {
            let target = target_on(&self.own_fader(n + 1), driver);
            if target.is_some() {
                return target;
            }
        }
        None
    }
}

impl Accepted<'_> {
    // The bank's own driver: an accepted profile names it by a byte.
    pub fn own_driver(&self) -> Option<u8>
        ensures { result ≡ named (here_in self.now.here).part.device }
    {
        let own = lookup::device_of(self.here.profile, self.here.bank)?;
        Some(own as u8)
    }

    // The driver of this bank's device: its own, else the one most of its faders use.
    #[tactic(auto, unfolding(definition::specs::Rig::device), using(lookup::proofs::NamedLaws::by_none, lookup::proofs::NamedLaws::by_some))]
    pub fn device(&self) -> Option<u8>
        ensures { result ≡ named (device_of (here_in self.now.here)) }
    {
        // A `match` and no `or_else`: the proof over its closure did not close.
        match self.own_driver() {
            None => self.here.bank_driver(),
            own => own,
        }
    }
}
