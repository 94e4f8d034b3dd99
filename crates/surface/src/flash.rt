// A number shown as a grid: the row by a position, the column by a button's lamp, played out over ticks.
ghost use Rattle.std.specs.Prelude.{◌≡◌, ◌+◌, ◌≤◌};
ghost use Rattle.drivers.specs.Talk.{got};
ghost use Rattle.drivers.specs.Shown.{shown};
ghost use Rattle.definition.specs.Flash.{phase_led, phases_to, finish_flash, flash_number, tick_flash, sent_up_to};
ghost use Rattle.rig.specs.Seen.{rig_in};
ghost use Rattle.surface.specs.Panel.{LampsAlone};

use crate::Panel;
use crate::lamps::{push_state, send_level};
use drivers::Io;
use rig::Current;
use session::Flash;

fn send_phase(io: &mut Io<'_>, flash: Flash, phase: u8)
    requires { flash.base + flash.column ≤ 255 }
    ensures { shown io.new ≡ phase_led flash phase (shown io.old) }
{
    io.send_led(flash.base + flash.column, phase % 2 == 0);
}

// The phases that are not sent yet, up to `due`.
#[tactic(auto, using(crate::proofs::Laws::no_phase, crate::proofs::Laws::one_phase, crate::proofs::Laws::all_phases))]
fn send_phases(io: &mut Io<'_>, flash: Flash, due: u8)
    requires { flash.base + flash.column ≤ 255 }
    ensures { shown io.new ≡ phases_to flash due (shown io.old) }
{
    for phase in flash.sent..due {
        send_phase(io, flash, phase);
    }
}

// Sends what is left of the flash, hands the row's channel back the position it was last seen at, and puts the real lamps back.
#[tactic(auto, unfolding(definition::specs::Flash::finish_flash, definition::specs::Flash::send_home))]
pub fn finish_flash(io: &mut Io<'_>, here: &Current<'_>, panel: &Panel<'_>)
    ensures { shown io.new ≡ finish_flash (rig_in here.now) panel.now.lamps panel.now.silenced_targets.now panel.now.moves.now (shown io.old) }
{
    let flash = panel.lamps.flash;
    if !flash.on {
        return;
    }
    send_phases(io, flash, 6);
    let fader = usize::from(here.bank) * 16 + usize::from(flash.row);
    send_level(io, flash.row, panel.moves.last(fader));
    push_state(io, here, &panel.lamps, panel.silenced_targets);
}

// Shows a number, once the flash that is still playing is finished. Beyond 64 there is nothing to show.
#[tactic(auto, unfolding(definition::specs::Flash::flash_number, session::specs::Session::flashing, session::specs::Session::no_flash))]
pub fn flash_number(io: &mut Io<'_>, here: &Current<'_>, panel: &mut Panel<'_>, n: usize, base: u8)
    requires { base ≤ 8 }
    ensures value { got panel.new.lamps (shown io.new) ≡ flash_number (rig_in here.now) panel.old.silenced_targets.now panel.old.moves.now panel.old.time n base panel.old.lamps (shown io.old) }
    ensures rest { LampsAlone panel.old panel.new }
{
    finish_flash(io, here, panel);
    if 64 <= n {
        panel.lamps.flashing(Flash::none());
        return;
    }
    let flash = Flash {
        on: true,
        start: panel.time,
        row: (n / 8) as u8,
        base,
        column: (n % 8) as u8,
        sent: 1,
    };
    io.send_position(flash.row, 0.0);
    send_phase(io, flash, 0);
    panel.lamps.flashing(flash);
}

fn sent_up_to(flash: Flash, due: u8) -> Flash
    ensures { result ≡ sent_up_to due flash }
{
    Flash {
        sent: flash.sent.max(due),
        ..flash
    }
}

// Sends whatever phases of the flash are due by now, and ends it when its time is up.
#[tactic(auto, unfolding(definition::specs::Flash::tick_flash, session::specs::Session::flashing, session::specs::Session::no_flash), using(crate::proofs::Laws::due_few))]
pub fn tick_flash(io: &mut Io<'_>, here: &Current<'_>, panel: &mut Panel<'_>)
    ensures value { got panel.new.lamps (shown io.new) ≡ tick_flash (rig_in here.now) panel.old.silenced_targets.now panel.old.moves.now panel.old.time panel.old.lamps (shown io.old) }
    ensures rest { LampsAlone panel.old panel.new }
{
    let flash = panel.lamps.flash;
    if !flash.on {
        return;
    }
    let due = float::due(panel.time, flash.start) as u8;
    send_phases(io, flash, due);
    panel.lamps.flashing(sent_up_to(flash, due));
    if float::flash_over(panel.time, flash.start) {
        finish_flash(io, here, panel);
        panel.lamps.flashing(Flash::none());
    }
}
