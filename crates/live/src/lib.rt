#![tactic(auto)]

// A live bank's faders, asked of its driver right after a change and then once a second: `refresh_live` of bridge.rs.
ghost use Rattle.std.specs.Prelude.{◌≡◌, ◌≤◌, true, false, Some, IfSome};
ghost use Rattle.drivers.specs.Talk.{got};
ghost use Rattle.drivers.specs.Shown.{shown, listed};
ghost use Rattle.session.specs.Session.{seen_strips, strips_or};
ghost use Rattle.definition.specs.Live.{handed, same_as, ask_if, refresh_live, refresh_due, is_due};
ghost use Rattle.rig.specs.Seen.{here_in, rig_in};
ghost use Rattle.live.specs.Again.{seen_again};

use drivers::{Io, LiveFaders};
use rig::{Accepted, Current};
use session::{Lamps, Strips};
use surface::lamps::push_state;

// Whether the driver was asked before, and handed over the same.
#[tactic(auto, unfolding(session::specs::Session::seen_strips))]
fn is_as_before(before: &Strips, after: &Strips) -> bool
    requires before_few { before.now.known ≡ true → before.now.count ≤ 8 }
    requires after_few { after.now.known ≡ true → after.now.count ≤ 8 }
    ensures { result ≡ same_as (seen_strips before.now) (strips_or (seen_strips after.now)) }
{
    before.known && before.same(after)
}

// What the driver handed over. A refusal counts as an empty list.
#[tactic(auto, unfolding(session::specs::Session::strips_of, base::specs::Keyed::keep), using(session::proofs::SessionLaws::is_known))]
fn handed(driver: u8, faders: Option<LiveFaders>) -> Strips
    ensures value { seen_strips result ≡ Some (handed driver (listed faders)) }
    ensures known { (result.known ≡ true) × (result.count ≤ 8) }
{
    match faders {
        Some(f) => Strips::handed_over(driver, f.as_slice()),
        None => Strips::none(),
    }
}

// Asks the driver which faders the bank has now: its list, where that is another one. The first always is.
#[tactic(auto, unfolding(drivers::specs::Talk::next))]
fn ask(
    io: &mut Io<'_>,
    here: &Current<'_>,
    driver: u8,
    which: u16,
    lamps: &Lamps,
    silenced_targets: &[u16],
) -> Option<Strips>
    requires driver_value { driver ≡ (here_in here.now).part.device }
    requires which_value { which ≡ (here_in here.now).part.live }
    ensures value { got (seen_again (here_in here.now).strips result) (shown io.new) ≡ ask_if false (seen_strips here.now.strips.now) (rig_in here.now) lamps.now silenced_targets.now (shown io.old) }
    ensures known { IfSome result (λ s. (s.known ≡ true) × (s.count ≤ 8)) }
{
    let strips = handed(driver, io.live_faders(driver, which));
    if is_as_before(here.strips, &strips) {
        return None;
    }
    let there = Current {
        profile: here.profile,
        bank: here.bank,
        strips: &strips,
    };
    push_state(io, &there, lamps, silenced_targets);
    Some(strips)
}

// A bank that is not live, or has no driver of its own, asks nobody.
fn refresh_live(
    io: &mut Io<'_>,
    here: &Accepted<'_>,
    lamps: &Lamps,
    silenced_targets: &[u16],
) -> Option<Strips>
    ensures value { got (seen_again (here_in here.now.here).strips result) (shown io.new) ≡ refresh_live (seen_strips here.now.here.strips.now) (rig_in here.now.here) lamps.now silenced_targets.now (shown io.old) }
    ensures known { IfSome result (λ s. (s.known ≡ true) × (s.count ≤ 8)) }
{
    let Current { profile, bank, .. } = here.here;
    let driver = here.own_driver()?;
    let which = lookup::live_of(profile, bank)?;
    ask(io, &here.here, driver, which, lamps, silenced_targets)
}

// Right after a change, then once a second.
pub fn is_due(due: bool, at: f64, time: f64) -> bool
    ensures { result ≡ is_due due at time }
{
    due | (time - at >= 1.0)
}

// A live bank's faders, where they are due: its list, where that is another one.
pub fn refresh(
    io: &mut Io<'_>,
    here: &Accepted<'_>,
    lamps: &Lamps,
    silenced_targets: &[u16],
    due: bool,
) -> Option<Strips>
    ensures value { got (seen_again (here_in here.now.here).strips result) (shown io.new) ≡ refresh_due due (seen_strips here.now.here.strips.now) (rig_in here.now.here) lamps.now silenced_targets.now (shown io.old) }
    ensures known { IfSome result (λ s. (s.known ≡ true) × (s.count ≤ 8)) }
{
    if due {
        refresh_live(io, here, lamps, silenced_targets)
    } else {
        None
    }
}
