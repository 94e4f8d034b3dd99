#![tactic(auto)]

// Selecting a bank: `select_bank`, `step_bank` and `flash_bank` of bridge.rs. `there` is the bank that becomes the current one.
ghost use Rattle.std.specs.Prelude.{◌≡◌, ◌<◌, eqb};
ghost use Rattle.profile.specs.Profile.{bank_count};
ghost use Rattle.drivers.specs.Talk.{got};
ghost use Rattle.drivers.specs.Shown.{shown};
ghost use Rattle.definition.specs.Lamps.{push_state};
ghost use Rattle.definition.specs.Flash.{flash_bank};
ghost use Rattle.definition.specs.Banks.{selected_as, next_bank, select_if};
ghost use Rattle.rig.specs.Seen.{rig_in};
ghost use Rattle.surface.specs.Panel.{LampsAlone};

use drivers::Io;
use rig::Current;
use surface::Panel;
use surface::flash::flash_number;
use surface::lamps::push_state;

// Shows the number of the current bank.
#[tactic(auto, unfolding(definition::specs::Flash::flash_bank))]
pub fn flash_bank(io: &mut Io<'_>, here: &Current<'_>, panel: &mut Panel<'_>)
    ensures value { got panel.new.lamps (shown io.new) ≡ flash_bank (rig_in here.now) panel.old.silenced_targets.now panel.old.moves.now panel.old.time panel.old.lamps (shown io.old) }
    ensures rest { LampsAlone panel.old panel.new }
{
    flash_number(io, here, panel, usize::from(here.bank), protocol::REC);
}

// The bank's lamps, then its number.
pub fn select_bank(io: &mut Io<'_>, there: &Current<'_>, panel: &mut Panel<'_>)
    ensures value { got panel.new.lamps (shown io.new) ≡ flash_bank (rig_in there.now) panel.old.silenced_targets.now panel.old.moves.now panel.old.time panel.old.lamps (push_state (rig_in there.now) panel.old.lamps panel.old.silenced_targets.now (shown io.old)) }
    ensures rest { LampsAlone panel.old panel.new }
{
    push_state(io, there, &panel.lamps, panel.silenced_targets);
    flash_bank(io, there, panel);
}

// The next bank on that side; the ends hold instead of wrapping.
#[tactic(auto, unfolding(definition::specs::Banks::next_bank), using(crate::proofs::Laws::one_left))]
pub fn next_bank(profile: &[u8], bank: u8, right: bool) -> u8
    requires { bank < 16 }
    ensures { result ≡ next_bank right (bank_count profile.now) bank }
{
    if !right {
        return bank.saturating_sub(1);
    }
    if lookup::has_bank(profile, usize::from(bank) + 1) {
        bank + 1
    } else {
        bank
    }
}

// One bank on: `there` is the next bank on that side, which at an end is the current one, and then nothing happens. Whether it was selected.
pub fn step_bank(io: &mut Io<'_>, bank: u8, there: &Current<'_>, panel: &mut Panel<'_>) -> bool
    ensures value { got (selected_as there.now.bank panel.new.lamps result) (shown io.new) ≡ select_if (eqb there.now.bank bank) (λ _. rig_in there.now) bank there.now.bank panel.old.silenced_targets.now panel.old.moves.now panel.old.time panel.old.lamps (shown io.old) }
    ensures rest { LampsAlone panel.old panel.new }
{
    if there.bank == bank {
        return false;
    }
    select_bank(io, there, panel);
    true
}
