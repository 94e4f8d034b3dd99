// Fader positions and the four lamps of each fader: `push_state` and `is_muted` of bridge.rs.
ghost use Rattle.std.specs.Prelude.{◌≡◌, ◌<◌};
ghost use Rattle.lookup.specs.Lookup.{positions_of};
ghost use Rattle.drivers.specs.Talk.{got};
ghost use Rattle.drivers.specs.Shown.{shown};
ghost use Rattle.definition.specs.Levels.{has_mute};
ghost use Rattle.definition.specs.Lamps.{send_level, position_for, muted_if, muted_to, push_fader, push_state};
ghost use Rattle.rig.specs.Seen.{rig_in};

use drivers::Io;
use lookup::Destination;
use rig::{Current, levels};
use session::Lamps;

// Whether what is wired here is muted; one whose mute cannot be read is not.
#[tactic(auto, unfolding(drivers::specs::Talk::next))]
pub fn is_muted_at(io: &mut Io<'_>, dest: Destination, silenced_targets: &[u16]) -> bool
    ensures { got result (shown io.new) ≡ muted_if (has_mute dest) dest silenced_targets.now (shown io.old) }
{
    if levels::has_mute(dest) {
        levels::read_mute(io, dest).unwrap_or(false)
    } else {
        session::is_silenced(silenced_targets, levels::kept_by(dest))
    }
}

// A fader without a destination is not muted.
pub fn is_muted(io: &mut Io<'_>, to: Option<Destination>, silenced_targets: &[u16]) -> bool
    ensures { got result (shown io.new) ≡ muted_to to silenced_targets.now (shown io.old) }
{
    match to {
        Some(dest) => is_muted_at(io, dest, silenced_targets),
        None => false,
    }
}

// A position for a level that is known: nothing would ever align with another's.
pub fn send_level(io: &mut Io<'_>, channel: u8, level: Option<f64>)
    ensures { shown io.new ≡ send_level channel level (shown io.old) }
{
    if let Some(x) = level {
        io.send_position(channel, x);
    }
}

// A value is read only where it is going to be sent.
fn push_position(io: &mut Io<'_>, profile: &[u8], channel: u8, to: Option<Destination>)
    ensures { shown io.new ≡ position_for (positions_of profile.now) channel to (shown io.old) }
{
    if !lookup::positions(profile) {
        return;
    }
    if let Some(dest) = to {
        let level = levels::read(io, dest);
        send_level(io, channel, level);
    }
}

// The fader's position, then its four lamps. The square button's lamp is lit only where the profile gave it a job.
#[tactic(auto, unfolding(definition::specs::Lamps::push_fader, definition::specs::Lamps::push_position, definition::specs::Lamps::is_muted))]
fn push_fader(
    io: &mut Io<'_>,
    here: &Current<'_>,
    lamps: &Lamps,
    silenced_targets: &[u16],
    channel: u8,
)
    requires { channel < 8 }
    ensures { shown io.new ≡ push_fader (rig_in here.now) lamps.now silenced_targets.now channel (shown io.old) }
{
    let number = channel + 1;
    let to = here.destination(number);
    push_position(io, here.profile, channel, to);
    let muted = is_muted(io, to, silenced_targets);
    io.send_led(protocol::MUTE + channel, muted);
    io.send_led(protocol::SOLO + channel, lamps.soloed == number);
    io.send_led(protocol::REC + channel, lamps.loaded == number);
    let selected = lookup::select_is_bank(here.profile, here.bank) & (here.bank == channel);
    io.send_led(protocol::SELECT + channel, selected);
}

// Everything the surface can show of its faders. Lamps and targets go side by side: a mute and a solo change both, and a panel has more than is shown here.
#[tactic(auto, unfolding(definition::specs::Lamps::push_state), using(crate::proofs::Laws::no_fader, crate::proofs::Laws::one_fader))]
pub fn push_state(io: &mut Io<'_>, here: &Current<'_>, lamps: &Lamps, silenced_targets: &[u16])
    ensures { shown io.new ≡ push_state (rig_in here.now) lamps.now silenced_targets.now (shown io.old) }
{
    for channel in 0..8 {
        push_fader(io, here, lamps, silenced_targets, channel);
    }
}
