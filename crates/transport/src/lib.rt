#![tactic(auto)]

// The transport lamps of a bank: lit while the app is there at all, since a bound button that does nothing should not look available. One ask for each
// player, not for each button. The port of `push_transport` of bridge.rs.
ghost use Rattle.std.specs.Prelude.{◌≡◌, [], ◌+◌, ◌≤◌, ◌<◌, length};
ghost use Rattle.base.specs.Keyed.{find};
ghost use Rattle.profile.specs.Profile.{verdict};
ghost use Rattle.lookup.specs.Lookup.{transports_of, merged};
ghost use Rattle.protocol.specs.Protocol.{transport_note};
ghost use Rattle.drivers.specs.Talk.{got};
ghost use Rattle.drivers.specs.Shown.{shown};
ghost use Rattle.definition.specs.Lamps.{is_player, meet_if, lamp_for, push_bound};

mod players;

use drivers::Io;
use lookup::{Command, Entry};
use players::Players;

// The lamp of a button shows whether its player is there. One that is not known yet is asked, and known from here on.
#[tactic(auto, unfolding(drivers::specs::Talk::next))]
fn light(io: &mut Io<'_>, known: &mut Players, note: u8, c: Command)
    requires { length known.old < 32 }
    ensures value { got known.new (shown io.new) ≡ meet_if (find (is_player c) known.old) c known.old note (shown io.old) }
    ensures few { length known.new ≤ length known.old + 1 }
{
    let there = match known.answer(c) {
        Some(there) => there,
        None => {
            let there = io.playing(c.driver, c.target);
            known.meet(c, there);
            there
        }
    };
    io.send_led(note, there);
}

// The lamp of one bound button. Its kind is the profile's number, and one without a lamp asks nobody.
fn push_bound(io: &mut Io<'_>, known: &mut Players, button: Entry)
    requires { length known.old < 32 }
    ensures value { got known.new (shown io.new) ≡ lamp_for (transport_note button.kind) button.command known.old (shown io.old) }
    ensures few { length known.new ≤ length known.old + 1 }
{
    if let Some(note) = protocol::transport_note(button.kind) {
        light(io, known, note, button.command);
    }
}

// Lights a transport button while its player is there, and leaves it dark while the app is closed.
#[tactic(auto, using(crate::proofs::Laws::one_lamp, crate::proofs::Laws::no_lamp))]
pub fn push_transport(io: &mut Io<'_>, profile: &[u8], bank: u8)
    requires { verdict profile.now ≡ 0 }
    ensures { shown io.new ≡ push_bound (merged (transports_of profile.now 255) (transports_of profile.now bank)) [] (shown io.old) }
{
    let buttons = lookup::transports(profile, bank);
    let mut known = Players::none();
    for button in buttons.as_slice() {
        push_bound(io, &mut known, *button);
    }
}
