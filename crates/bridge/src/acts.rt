// The events that ask or send, over groups of the session.
ghost use Rattle.std.specs.Prelude.{◌≡◌, true, false, ◌+◌, ◌≤◌, ◌<◌, eqb, length};
ghost use Rattle.base.specs.Keyed.{no_twice};
ghost use Rattle.profile.specs.Profile.{bank_count};
ghost use Rattle.drivers.specs.Shown.{shown};
ghost use Rattle.session.specs.Session.{seen_silenced, targets_of};
ghost use Rattle.surface.specs.Note.{has_note};
ghost use Rattle.after.specs.After.{KnownIf};
ghost use Rattle.bridge.specs.Which.{press_in, runs, bank_by, adds_by};
ghost use Rattle.bridge.specs.Acts.{pressing, Runs, Ticks, RunsPanel, RunsAny};

use crate::{buttons, which};
use after::Left;
use drivers::Io;
use event::{Input, Timed};
use protocol::Button;
use rig::{Accepted, Current};
use session::{Lamps, Moves, Silenced};
use surface::Panel;

// Lamps and levels apart, nothing changes.
fn still(bank: u8) -> Left
    ensures { result ≡ record { bank = bank; strips = None; moved = false; saved = false } }
{
    Left {
        bank,
        strips: None,
        moved: false,
        saved: false,
    }
}

fn on_button(
    io: &mut Io<'_>,
    here: &Accepted<'_>,
    there: &Current<'_>,
    lamps: &mut Lamps,
    silenced: &mut Silenced,
    moves: &Moves,
    time: f64,
    b: Button,
) -> Left
    requires profile_value { there.now.profile.now ≡ here.now.here.profile.now }
    requires bank_bound { here.now.here.bank < bank_count here.now.here.profile.now }
    requires bank_value { there.now.bank ≡ bank_by here.now.here.profile.now here.now.here.bank (Some b) }
    requires flash_value { has_note lamps.old.flash ≡ true }
    requires silenced_bound { silenced.old.count ≤ 256 }
    requires levels_value { no_twice eqb (targets_of (seen_silenced silenced.old)) ≡ true }
    requires levels_len_bound { length (seen_silenced silenced.old) + length (adds_by here.now.here lamps.old (Some b) (targets_of (seen_silenced silenced.old))) ≤ 256 }
    ensures runs { Runs (pressing b.note) here.now.here there.now lamps.old (seen_silenced silenced.old) moves.now time (shown io.old) result lamps.new (seen_silenced silenced.new) (shown io.new) }
    ensures known_if { KnownIf result.strips }
    ensures silenced_bound_2 { silenced.new.count ≤ 256 }
{
    let pressed = buttons::button(io, here, there, lamps, silenced, moves, time, b);
    Left {
        bank: pressed.bank,
        strips: None,
        moved: pressed.moved,
        saved: pressed.saved,
    }
}

// What is due behind the drain: a live bank's faders, and the phases of a flash.
fn on_tick(io: &mut Io<'_>, here: &Accepted<'_>, panel: &mut Panel<'_>, due: bool) -> Left
    ensures ticks { Ticks here.now.here panel.old panel.new due (shown io.old) result (shown io.new) }
    ensures known_if { KnownIf result.strips }
{
    let bank = here.here.bank;
    let strips = live::refresh(io, here, &panel.lamps, panel.silenced_targets, due);
    match &strips {
        Some(changed) => {
            let there = Current {
                profile: here.here.profile,
                bank,
                strips: changed,
            };
            surface::flash::tick_flash(io, &there, panel);
        }
        None => surface::flash::tick_flash(io, &here.here, panel),
    }
    Left {
        bank,
        strips,
        moved: false,
        saved: false,
    }
}

// An event that may ask or send, other than a hand's and a press.
fn on_panel(
    io: &mut Io<'_>,
    here: &Accepted<'_>,
    panel: &mut Panel<'_>,
    due: bool,
    what: Input,
) -> Left
    requires what_value { runs what ≡ true }
    requires press_value { press_in what ≡ None }
    ensures runs { RunsPanel what here.now.here panel.old panel.new due (shown io.old) result (shown io.new) }
    ensures known_if { KnownIf result.strips }
{
    let bank = here.here.bank;
    match what {
        // Of MIDI only a pressed button asks or sends.
        Input::Midi(_) => still(bank),
        Input::Tick => on_tick(io, here, panel, due),
        Input::PushState => {
            surface::lamps::push_state(io, &here.here, &panel.lamps, panel.silenced_targets);
            still(bank)
        }
        Input::PushTransport => {
            transport::push_transport(io, here.here.profile, bank);
            still(bank)
        }
        Input::FlashBank => {
            banks::flash_bank(io, &here.here, panel);
            still(bank)
        }
    }
}

// An event that may ask or send, other than a hand's. `there` is the bank that is current after it. Lamps, silenced levels, moves and time are no panel here: a
// mute and a solo change the levels, of which a panel is lent the targets alone. Which events run here is asked for, as
// `step` tells them apart: a type of them would be the event's own once more.
pub fn run(
    io: &mut Io<'_>,
    here: &Accepted<'_>,
    there: &Current<'_>,
    due: bool,
    lamps: &mut Lamps,
    silenced: &mut Silenced,
    moves: &Moves,
    e: Timed,
) -> Left
    requires profile_value { there.now.profile.now ≡ here.now.here.profile.now }
    requires bank_bound { here.now.here.bank < bank_count here.now.here.profile.now }
    requires what_value { runs e.what ≡ true }
    requires bank_value { there.now.bank ≡ bank_by here.now.here.profile.now here.now.here.bank (press_in e.what) }
    requires flash_value { has_note lamps.old.flash ≡ true }
    requires silenced_bound { silenced.old.count ≤ 256 }
    requires levels_value { no_twice eqb (targets_of (seen_silenced silenced.old)) ≡ true }
    requires levels_len_bound { length (seen_silenced silenced.old) + length (adds_by here.now.here lamps.old (press_in e.what) (targets_of (seen_silenced silenced.old))) ≤ 256 }
    ensures runs_any { RunsAny e.what here.now.here there.now lamps.old (seen_silenced silenced.old) moves.now due e.time (shown io.old) result lamps.new (seen_silenced silenced.new) (shown io.new) }
    ensures known_if { KnownIf result.strips }
    ensures silenced_bound_2 { silenced.new.count ≤ 256 }
{
    match which::press_of(e.what) {
        Some(b) => on_button(io, here, there, lamps, silenced, moves, e.time, b),
        None => {
            let mut panel = Panel {
                lamps: *lamps,
                silenced_targets: silenced.targets(),
                moves,
                time: e.time,
            };
            let left = on_panel(io, here, &mut panel, due, e.what);
            *lamps = panel.lamps;
            left
        }
    }
}
