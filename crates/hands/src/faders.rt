// A move of a fader: held until it meets the device's level, else waiting for the next drain.
ghost use Rattle.std.specs.Prelude.{◌≡◌, ◌+◌, ◌<◌, Some};
ghost use Rattle.drivers.specs.Shown.{shown};
ghost use Rattle.definition.specs.Rig.{destination};
ghost use Rattle.definition.specs.Faders.{is_held};
ghost use Rattle.rig.specs.Seen.{rig_in};
ghost use Rattle.hands.specs.Verdicts.{Fades, controlled};

use crate::Verdict;
use drivers::Io;
use lookup::Destination;
use rig::Current;

// Gear that cannot answer cannot hold the fader.
fn is_held(device: Option<f64>, last: Option<f64>, value: f64) -> bool
    ensures { result ≡ is_held device last value }
{
    let Some(c) = device else {
        return false;
    };
    float::far(value, c) && !last.is_some_and(|p| float::crossed(p, c, value))
}

// A fader in control of its destination asks nothing. That the channel is below 16 is asked for from the event's test on: a type of channels would be taken apart
// at each use, and be no plainer.
pub fn in_control(here: &Current<'_>, channel: u8) -> Verdict
    requires { channel < 16 }
    ensures { result ≡ controlled (destination (rig_in here.now) (channel + 1)) }
{
    match here.destination(channel + 1) {
        Some(_) => Verdict::Taken,
        None => Verdict::Ignored,
    }
}

// A destination that waives takeover is not asked.
fn fader_at(io: &mut Io<'_>, dest: Destination, last: Option<f64>, value: f64) -> Verdict
    ensures { Fades (Some dest) last value (shown io.old) result (shown io.new) }
{
    if !dest.takeover {
        return Verdict::Taken;
    }
    if is_held(rig::levels::read(io, dest), last, value) {
        Verdict::Held
    } else {
        Verdict::Taken
    }
}

// What becomes of a move of a fader that is not in control, with its last move there.
pub fn fader(
    io: &mut Io<'_>,
    here: &Current<'_>,
    last: Option<f64>,
    channel: u8,
    value: f64,
) -> Verdict
    requires { channel < 16 }
    ensures { Fades (destination (rig_in here.now) (channel + 1)) last value (shown io.old) result (shown io.new) }
{
    match here.destination(channel + 1) {
        Some(dest) => fader_at(io, dest, last, value),
        None => Verdict::Ignored,
    }
}
