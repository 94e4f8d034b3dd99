#![tactic(auto)]

// Mute, on gear with and without a mute of its own. Gear without one is silenced by its level, which is kept until it is handed back.
ghost use Rattle.std.specs.Prelude.{◌≡◌, true, ◌≤◌, take};
ghost use Rattle.drivers.specs.Talk.{got};
ghost use Rattle.drivers.specs.Shown.{shown};
ghost use Rattle.session.specs.Session.{seen_silenced, level_before, has_room};
ghost use Rattle.definition.specs.Rig.{destination};
ghost use Rattle.definition.specs.Levels.{or_zero, kept_by, has_mute};
ghost use Rattle.definition.specs.Muting.{hand_back, keep_level, zeroed, mute_if, mute as mute_of, set_mute};
ghost use Rattle.rig.specs.Seen.{rig_in};
ghost use Rattle.mutes.specs.Held.{room_for, room_at};

use drivers::Io;
use lookup::Destination;
use rig::{Current, levels};
use session::{Lamps, Silenced};

// ── gear without a mute ──

// The level that it had before it was silenced is handed back.
#[tactic(auto, unfolding(definition::specs::Muting::hand_back))]
pub fn hand_back(io: &mut Io<'_>, dest: Destination, silenced: &mut Silenced, before: f64)
    requires count_bound { silenced.old.count ≤ 256 }
    requires before_value { before ≡ or_zero (level_before (kept_by dest) (seen_silenced silenced.old)) }
    ensures line { got (seen_silenced silenced.new) (shown io.new) ≡ hand_back dest (seen_silenced silenced.old) (shown io.old) }
    ensures upper_bound { silenced.new.count ≤ 256 }
{
    silenced.remove_level(levels::kept_by(dest));
    levels::write(io, dest, before);
}

// Its level is kept, or 0 where it cannot be read.
#[tactic(auto, unfolding(definition::specs::Muting::keep_level, drivers::specs::Talk::next))]
pub fn keep_level(io: &mut Io<'_>, dest: Destination, silenced: &mut Silenced)
    requires count_bound { silenced.old.count ≤ 256 }
    requires room { has_room (kept_by dest) (take silenced.old.count silenced.old.targets) ≡ true }
    ensures line { got (seen_silenced silenced.new) (shown io.new) ≡ keep_level dest (seen_silenced silenced.old) (shown io.old) }
    ensures upper_bound { silenced.new.count ≤ 256 }
{
    let level = levels::read(io, dest);
    silenced.insert_level(levels::kept_by(dest), levels::or_zero(level));
}

// `mute` writes raw 0, not the low end of the range.
#[tactic(auto, unfolding(definition::specs::Muting::zeroed, drivers::specs::Talk::next))]
fn zeroed(io: &mut Io<'_>, dest: Destination, silenced: &mut Silenced)
    requires count_bound { silenced.old.count ≤ 256 }
    requires room { has_room (kept_by dest) (take silenced.old.count silenced.old.targets) ≡ true }
    ensures line { got (seen_silenced silenced.new) (shown io.new) ≡ zeroed dest (seen_silenced silenced.old) (shown io.old) }
    ensures upper_bound { silenced.new.count ≤ 256 }
{
    keep_level(io, dest, silenced);
    io.write(dest.driver, dest.target, 0.0);
}

// ── mute ──

#[tactic(auto, using(crate::proofs::HeldLaws::held_some, crate::proofs::HeldLaws::held_none))]
fn mute_at(io: &mut Io<'_>, dest: Destination, silenced: &mut Silenced)
    requires count_bound { silenced.old.count ≤ 256 }
    requires room { room_for dest (take silenced.old.count silenced.old.targets) ≡ true }
    ensures line { got (seen_silenced silenced.new) (shown io.new) ≡ mute_if (has_mute dest) dest (seen_silenced silenced.old) (shown io.old) }
    ensures upper_bound { silenced.new.count ≤ 256 }
{
    if levels::has_mute(dest) {
        io.toggle(dest.driver, dest.mute);
        return;
    }
    match silenced.level(levels::kept_by(dest)) {
        Some(before) => hand_back(io, dest, silenced, before),
        None => zeroed(io, dest, silenced),
    }
}

#[tactic(auto, unfolding(definition::specs::Muting::mute, drivers::specs::Talk::next))]
pub fn mute(io: &mut Io<'_>, here: &Current<'_>, lamps: &Lamps, silenced: &mut Silenced, fader: u8)
    requires count_bound { silenced.old.count ≤ 256 }
    requires room { room_at (destination (rig_in here.now) fader) (take silenced.old.count silenced.old.targets) ≡ true }
    ensures line { got (seen_silenced silenced.new) (shown io.new) ≡ mute_of (rig_in here.now) fader lamps.now (seen_silenced silenced.old) (shown io.old) }
    ensures upper_bound { silenced.new.count ≤ 256 }
{
    let Some(dest) = here.destination(fader) else {
        return;
    };
    mute_at(io, dest, silenced);
    surface::lamps::push_state(io, here, lamps, silenced.targets());
}

// ── gear with a mute ──

// One refused write must not abort the rest of a solo.
#[tactic(auto, unfolding(definition::specs::Muting::set_mute))]
pub fn set_mute(io: &mut Io<'_>, dest: Destination, muted: bool)
    ensures { shown io.new ≡ set_mute dest muted (shown io.old) }
{
    if levels::read_mute(io, dest) == Some(!muted) {
        io.toggle(dest.driver, dest.mute);
    }
}
