#![tactic(auto)]

// Paging through the scenes of the current device, and loading them.
mod load;
mod names;

ghost use Rattle.std.specs.Prelude.{◌≡◌, ◌≤◌, ◌<◌};
ghost use Rattle.drivers.specs.Talk.{got};
ghost use Rattle.drivers.specs.Shown.{shown};
ghost use Rattle.session.specs.Session.{scene_at};
ghost use Rattle.definition.specs.Scenes.{paged, started, next_scene, is_at, page_if, step_scene, scene};
ghost use Rattle.rig.specs.Seen.{rig_in};
ghost use Rattle.surface.specs.Panel.{LampsAlone};

use drivers::Io;
use load::load_scene_at;
use names::{scene_names, start};
use rig::Accepted;
use surface::Panel;
use surface::flash::flash_number;

// What an arrow leaves: whether a scene was loaded, and whether the positions were saved.
#[derive(Clone, Copy)]
pub struct Paged {
    pub loaded: bool,
    pub saved: bool,
}

// One on or one back, held within the list; the first one where no position is known.
fn next_scene(place: Option<usize>, count: usize, right: bool) -> usize
    requires { 1 ≤ count }
    ensures { result ≡ next_scene right place count }
{
    match place {
        None => 0,
        Some(i) if right => i.saturating_add(1).min(count - 1),
        Some(i) => i.saturating_sub(1).min(count - 1),
    }
}

// The arrow loads the scene that it reaches, and its number is shown. At the end of the list it does nothing.
#[tactic(auto, unfolding(drivers::specs::Talk::next))]
fn page_to(
    io: &mut Io<'_>,
    here: &Accepted<'_>,
    panel: &mut Panel<'_>,
    i: usize,
    saved: bool,
) -> Paged
    requires { here.now.here.bank < 16 }
    ensures value { got (paged panel.new.lamps result.loaded result.saved) (shown io.new) ≡ page_if (is_at (scene_at here.now.here.bank panel.old.lamps) i) (rig_in here.now.here) panel.old.silenced_targets.now panel.old.moves.now panel.old.time i (started panel.old.lamps saved) (shown io.old) }
    ensures rest { LampsAlone panel.old panel.new }
{
    let loaded = panel.lamps.scene_at(here.here.bank) != Some(i)
        && load_scene_at(io, here, panel, i);
    if loaded {
        flash_number(io, &here.here, panel, i, protocol::SOLO);
    }
    Paged {
        loaded,
        saved: loaded || saved,
    }
}

// Pages through the device's scenes, loading each as it is reached. The ends hold.
#[tactic(auto, unfolding(definition::specs::Scenes::step_scene, drivers::specs::Talk::next))]
pub fn step_scene(io: &mut Io<'_>, here: &Accepted<'_>, panel: &mut Panel<'_>, right: bool) -> Paged
    requires { here.now.here.bank < 16 }
    ensures value { got (paged panel.new.lamps result.loaded result.saved) (shown io.new) ≡ step_scene right (rig_in here.now.here) panel.old.silenced_targets.now panel.old.moves.now panel.old.time panel.old.lamps (shown io.old) }
    ensures rest { LampsAlone panel.old panel.new }
{
    let offer = scene_names(io, here);
    let count = offer.count();
    if count == 0 {
        return Paged {
            loaded: false,
            saved: false,
        };
    }
    let saved = start(io, here, &mut panel.lamps, &offer);
    let i = next_scene(panel.lamps.scene_at(here.here.bank), count, right);
    page_to(io, here, panel, i, saved)
}

// R n loads the n-th scene of the same list that the arrows page. Whether it was loaded; then the positions were saved too.
#[tactic(auto, unfolding(definition::specs::Scenes::scene, drivers::specs::Talk::next, session::specs::Session::loaded_by))]
pub fn scene(io: &mut Io<'_>, here: &Accepted<'_>, panel: &mut Panel<'_>, fader: u8) -> bool
    requires bank_bound { here.now.here.bank < 16 }
    requires le_fader { 1 ≤ fader }
    ensures value { got (paged panel.new.lamps result result) (shown io.new) ≡ scene (rig_in here.now.here) panel.old.silenced_targets.now panel.old.moves.now panel.old.time fader panel.old.lamps (shown io.old) }
    ensures rest { LampsAlone panel.old panel.new }
{
    let i = usize::from(fader) - 1;
    let loaded = load_scene_at(io, here, panel, i);
    if loaded {
        panel.lamps.loaded_by(fader);
        flash_number(io, &here.here, panel, i, protocol::SOLO);
    }
    loaded
}
