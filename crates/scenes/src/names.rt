// Which scenes the current device offers, and where it is among them.
ghost use Rattle.std.specs.Prelude.{◌≡◌, ◌<◌, get_or, IfSome};
ghost use Rattle.lookup.specs.Lookup.{or_absent, position};
ghost use Rattle.drivers.specs.Talk.{got};
ghost use Rattle.drivers.specs.Shown.{shown};
ghost use Rattle.definition.specs.Scenes.{scene_names, scene_on_device, started, start as start_of};
ghost use Rattle.rig.specs.Seen.{here_in};
ghost use Rattle.scenes.specs.Offer.{seen_offer, count_in, Offers};

use drivers::{Io, Names};
use rig::{Accepted, Current};
use session::Lamps;

// The scenes of the current device: so many of the profile's own list of the bank, or the names that the device reports.
#[derive(Drop)]
pub enum Offer {
    Own(usize),
    Reported(Names),
}

impl Offer {
    pub fn count(&self) -> usize
        ensures { result ≡ count_in self.now }
    {
        match self {
            Offer::Own(count) => *count,
            Offer::Reported(names) => names.as_slice().len(),
        }
    }

    // The name of the i-th scene that is offered.
    pub fn name_at(&self, here: &Current<'_>, i: usize) -> Option<u16>
        ensures { or_absent result ≡ get_or (seen_offer here.now.profile.now here.now.bank self.now) i 65535 }
    {
        match self {
            Offer::Own(_) => lookup::scene_name(here.profile, here.bank, i),
            Offer::Reported(names) => names.as_slice().get(i).copied(),
        }
    }

    // The first place of a name among them.
    fn position_of(&self, here: &Current<'_>, name: u16) -> Option<usize>
        ensures { result ≡ position name (seen_offer here.now.profile.now here.now.bank self.now) }
    {
        match self {
            Offer::Own(_) => lookup::scene_position(here.profile, here.bank, name),
            Offer::Reported(names) => place_in(names, name),
        }
    }
}

// The first place of a name in a device's list.
pub fn place_in(names: &Names, name: u16) -> Option<usize>
    ensures { result ≡ position name names.now }
{
    names.as_slice().iter().position(|n| *n == name)
}

// Which scenes this device offers, in order: the profile's list when it has one, otherwise whatever the device itself reports.
#[tactic(auto, unfolding(definition::specs::Scenes::scene_names, drivers::specs::Talk::next), using(lookup::proofs::NamedLaws::is_absent, lookup::proofs::NamedLaws::is_there, crate::proofs::Laws::own_few, lookup::proofs::NamedLaws::its_name))]
pub fn scene_names(io: &mut Io<'_>, here: &Accepted<'_>) -> Offer
    ensures value { got (seen_offer here.now.here.profile.now here.now.here.bank result) (shown io.new) ≡ scene_names (here_in here.now.here) (shown io.old) }
    ensures offers { Offers here.now.here.profile.now here.now.here.bank result }
{
    let own = lookup::scene_count(here.here.profile, here.here.bank);
    if own != 0 {
        return Offer::Own(own);
    }
    let Some(driver) = here.device() else {
        return Offer::Reported(Names::none());
    };
    Offer::Reported(io.scenes(driver).unwrap_or_else(Names::none))
}

// ── where the device is ──

// Where the device itself is, as a position among the scenes offered, or nothing when it cannot say.
#[tactic(auto, unfolding(definition::specs::Scenes::scene_on_device, drivers::specs::Talk::next), using(lookup::proofs::NamedLaws::is_absent, lookup::proofs::NamedLaws::is_there, crate::proofs::Laws::position_low, lookup::proofs::NamedLaws::its_name))]
fn scene_on_device(io: &mut Io<'_>, here: &Accepted<'_>, offer: &Offer) -> Option<usize>
    requires offers { Offers here.now.here.profile.now here.now.here.bank offer.now }
    ensures value { got result (shown io.new) ≡ scene_on_device (here_in here.now.here) (seen_offer here.now.here.profile.now here.now.here.bank offer.now) (shown io.old) }
    ensures low { IfSome result (λ i. i < 4294967296) }
{
    let driver = here.device()?;
    let i = io.current_scene(driver)?;
    let names = io.scenes(driver)?;
    let name = names.as_slice().get(i as usize)?;
    offer.position_of(&here.here, *name)
}

// ── the position that is kept ──

// Where no position is kept, the device's own is: a scene picked on the device is the starting point of the next arrow. Whether the positions
// were saved.
#[tactic(auto, unfolding(definition::specs::Scenes::start, drivers::specs::Talk::next, session::specs::Session::scene_to, session::specs::Session::scene_unknown))]
pub fn start(io: &mut Io<'_>, here: &Accepted<'_>, lamps: &mut Lamps, offer: &Offer) -> bool
    requires bank_bound { here.now.here.bank < 16 }
    requires offers { Offers here.now.here.profile.now here.now.here.bank offer.now }
    ensures value { got (started lamps.new result) (shown io.new) ≡ start_of (here_in here.now.here) (seen_offer here.now.here.profile.now here.now.here.bank offer.now) lamps.old (shown io.old) }
    ensures flash { lamps.new.flash ≡ lamps.old.flash }
{
    let bank = here.here.bank;
    if lamps.scene_at(bank).is_some() {
        return false;
    }
    match scene_on_device(io, here, offer) {
        Some(i) => lamps.scene_to(bank, i as u32),
        None => lamps.scene_unknown(bank),
    }
    true
}
