#![tactic(auto)]

// What a button is bound to: by the profile, or else by the bank's driver.
ghost use Rattle.std.specs.Prelude.{◌≡◌};
ghost use Rattle.drivers.specs.Talk.{got};
ghost use Rattle.drivers.specs.Shown.{shown};
ghost use Rattle.definition.specs.Buttons.{default_button, run_command, rec_loads};
ghost use Rattle.rig.specs.Seen.{rig_in};

use drivers::Io;
use lookup::{Command, Rec};
use rig::Current;

// What the bank's driver says this button does, if the profile did not say. The driver is opened for it; its buttons are no call. The
// kind is the profile's number, as in `run_command`.
#[tactic(auto, unfolding(definition::specs::Buttons::default_button, drivers::specs::Talk::next), using(lookup::proofs::NamedLaws::is_absent, lookup::proofs::NamedLaws::is_there, lookup::proofs::NamedLaws::its_name))]
fn default_button(io: &mut Io<'_>, here: &Current<'_>, kind: u8) -> Option<Command>
    ensures { got result (shown io.new) ≡ default_button (rig_in here.now) kind (shown io.old) }
{
    let driver = here.bank_driver()?;
    if !io.open(driver) {
        return None;
    }
    let command = lookup::default_command(here.profile, driver, kind)?;
    let target = here.first_target(driver).unwrap_or(lookup::ABSENT);
    Some(Command {
        driver,
        target,
        command,
    })
}

// Runs what the button is bound to, or what the bank's driver does with it. The kind is the profile's number: a narrower type would ask more of callers. A
// `match` and no `or_else`: its closure would hold the line, and be no plainer.
#[tactic(auto, unfolding(definition::specs::Buttons::run_command))]
pub fn run_command(io: &mut Io<'_>, here: &Current<'_>, kind: u8)
    ensures { shown io.new ≡ run_command (rig_in here.now) kind (shown io.old) }
{
    let bound = match lookup::transport_in_reach(here.profile, here.bank, kind) {
        None => default_button(io, here, kind),
        bound => bound,
    };
    if let Some(c) = bound {
        io.command(c.driver, c.target, c.command);
    }
}

// Whether R loads a scene: the profile says so, or says nothing and the bank's driver does.
#[tactic(auto, unfolding(definition::specs::Buttons::rec_loads, drivers::specs::Talk::next))]
pub fn rec_loads(io: &mut Io<'_>, here: &Current<'_>) -> bool
    ensures { got result (shown io.new) ≡ rec_loads (rig_in here.now) (shown io.old) }
{
    match lookup::rec_action(here.profile, here.bank) {
        None => default_button(io, here, 0).is_some_and(|c| c.command == 1),
        Some(Rec::Scene) => true,
        Some(Rec::Other(_)) => false,
    }
}
