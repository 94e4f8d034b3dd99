// The faders of one group, by number.
ghost use Rattle.std.specs.Prelude.{◌≡◌};
ghost use Rattle.definition.specs.Muting.{in_group};
ghost use Rattle.rig.specs.Seen.{rig_in};
ghost use Rattle.solos.specs.Peers.{ArePeers};

use lookup::Destination;
use rig::Current;

// What the faders 1 to 16 are wired to, each at its number - 1, where that is of the group.
pub type Peers = [Option<Destination>; 16];

// Only a destination of the group.
fn in_group(to: Option<Destination>, group: u16) -> Option<Destination>
    ensures { result ≡ in_group group to }
{
    to.filter(|dest| dest.group == group)
}

// The faders of the group: globals precede the bank.
#[tactic(auto, using(crate::proofs::Laws::none_yet))]
pub fn peers_of(here: &Current<'_>, group: u16) -> Peers
    ensures { ArePeers (rig_in here.now) group result }
{
    let mut peers = [None; 16];
    for n in 0..16 {
        peers[n] = in_group(here.destination(n as u8 + 1), group);
    }
    peers
}
