// What the bridge reads and writes of a destination.
ghost use Rattle.std.specs.Prelude.{◌≡◌};
ghost use Rattle.drivers.specs.Talk.{got};
ghost use Rattle.drivers.specs.Shown.{shown};
ghost use Rattle.definition.specs.Levels.{read as read_of, write as write_of, read_mute, or_zero, kept_by, has_mute};

use drivers::Io;
use lookup::Destination;

// The value as the fader sees it: the destination's range mapped back onto the full travel.
#[tactic(auto, unfolding(definition::specs::Levels::read, drivers::specs::Talk::next))]
pub fn read(io: &mut Io<'_>, dest: Destination) -> Option<f64>
    ensures { got result (shown io.new) ≡ read_of dest (shown io.old) }
{
    io.read(dest.driver, dest.target)
        .map(|x| float::normalised(dest.low, dest.high, x))
}

#[tactic(auto, unfolding(definition::specs::Levels::write))]
pub fn write(io: &mut Io<'_>, dest: Destination, value: f64) -> bool
    ensures { got result (shown io.new) ≡ write_of dest value (shown io.old) }
{
    io.write(
        dest.driver,
        dest.target,
        float::ranged(dest.low, dest.high, value),
    )
}

// The value, or 0 where the device has none to tell.
pub fn or_zero(level: Option<f64>) -> f64
    ensures { result ≡ or_zero level }
{
    level.unwrap_or(0.0)
}

// Muted from 0.5 on, where it can be read.
#[tactic(auto, unfolding(definition::specs::Levels::read_mute, drivers::specs::Talk::next))]
pub fn read_mute(io: &mut Io<'_>, dest: Destination) -> Option<bool>
    ensures { got result (shown io.new) ≡ read_mute dest (shown io.old) }
{
    io.read(dest.driver, dest.mute).map(|x| x >= 0.5)
}

// The target as the silenced levels are kept by: absent counts as 0.
pub fn kept_by(dest: Destination) -> u16
    ensures { result ≡ kept_by dest }
{
    if dest.target == lookup::ABSENT {
        0
    } else {
        dest.target
    }
}

// The destination has a mute parameter.
pub fn has_mute(dest: Destination) -> bool
    ensures { result ≡ has_mute dest }
{
    dest.mute != lookup::ABSENT
}
