// Loading a scene on the current device.
ghost use Rattle.std.specs.Prelude.{◌≡◌, ◌<◌};
ghost use Rattle.drivers.specs.Talk.{got};
ghost use Rattle.drivers.specs.Shown.{shown};
ghost use Rattle.definition.specs.Scenes.{after_load, load_on, loaded, load_scene_at};
ghost use Rattle.rig.specs.Seen.{rig_in};
ghost use Rattle.surface.specs.Panel.{LampsAlone};

use crate::names::{place_in, scene_names};
use drivers::Io;
use rig::Accepted;
use session::Lamps;
use surface::Panel;

// Once scene i is loaded its position is kept, and no fader is soloed.
#[tactic(auto, unfolding(session::specs::Session::scene_to, session::specs::Session::solo_to, session::specs::Session::none_noted))]
fn after_load(lamps: &mut Lamps, bank: u8, i: u32)
    requires { bank < 16 }
    ensures value { lamps.new ≡ after_load bank i lamps.old }
    ensures flash { lamps.new.flash ≡ lamps.old.flash }
{
    lamps.scene_to(bank, i);
    lamps.solo_to(0);
    lamps.none_noted();
}

// The driver loads by its own list: the scene of the name, or the place itself where it has no such name.
#[tactic(auto, unfolding(definition::specs::Scenes::load_on, drivers::specs::Talk::next))]
fn load_on(io: &mut Io<'_>, driver: u8, name: u16, i: usize) -> bool
    requires { i < 4294967296 }
    ensures { got result (shown io.new) ≡ load_on driver name i (shown io.old) }
{
    let Some(names) = io.scenes(driver) else {
        return false;
    };
    let place = place_in(&names, name).unwrap_or(i);
    io.load_scene(driver, place as u32)
}

// Whether scene i was loaded.
#[tactic(auto, unfolding(definition::specs::Scenes::load_scene_at, drivers::specs::Talk::next), using(lookup::proofs::NamedLaws::is_absent, lookup::proofs::NamedLaws::is_there, lookup::proofs::NamedLaws::or_absent_is, lookup::proofs::NamedLaws::its_name))]
pub fn load_scene_at(io: &mut Io<'_>, here: &Accepted<'_>, panel: &mut Panel<'_>, i: usize) -> bool
    requires { here.now.here.bank < 16 }
    ensures value { got (loaded panel.new.lamps result) (shown io.new) ≡ load_scene_at (rig_in here.now.here) panel.old.silenced_targets.now i panel.old.lamps (shown io.old) }
    ensures rest { LampsAlone panel.old panel.new }
    ensures flash { panel.new.lamps.flash ≡ panel.old.lamps.flash }
{
    let offer = scene_names(io, here);
    let Some(driver) = here.device() else {
        return false;
    };
    if offer.count() <= i {
        return false;
    }
    let name = offer.name_at(&here.here, i).unwrap_or(lookup::ABSENT);
    if !load_on(io, driver, name, i) {
        return false;
    }
    after_load(&mut panel.lamps, here.here.bank, i as u32);
    surface::lamps::push_state(io, &here.here, &panel.lamps, panel.silenced_targets);
    true
}
