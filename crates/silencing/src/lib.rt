#![tactic(auto)]

// Number 11: how many targets a press would silence beside those that are, each once.
mod added;

ghost use Rattle.std.specs.Prelude.{◌≡◌, ◌+◌, ◌≤◌, ◌<◌, length};
ghost use Rattle.definition.specs.Muting.{adding, solo_adds, added_by_solo, added_by_mute};
ghost use Rattle.rig.specs.Seen.{rig_in};
ghost use Rattle.solos.specs.Peers.{seen_peers};

pub use added::Added;
use lookup::Destination;
use rig::{Current, levels};
use session::Lamps;
use solos::peers::{Peers, peers_of};

// A destination without a mute adds its target, unless that is silenced or added already.
fn adding(added: &mut Added, to: Option<Destination>, silenced_targets: &[u16])
    requires { length added.old < 16 }
    ensures value { added.new ≡ adding to silenced_targets.now added.old }
    ensures one_more { length added.new ≤ length added.old + 1 }
{
    let Some(dest) = to else {
        return;
    };
    let target = levels::kept_by(dest);
    if !levels::has_mute(dest) && !session::is_silenced(silenced_targets, target) {
        added.add(target);
    }
}

// How many a mute of the fader adds.
#[tactic(auto, unfolding(definition::specs::Muting::added_by_mute))]
pub fn added_by_mute(here: &Current<'_>, silenced_targets: &[u16], fader: u8) -> usize
    ensures { result ≡ length (added_by_mute (rig_in here.now) fader silenced_targets.now) }
{
    let mut added = Added::none();
    adding(&mut added, here.destination(fader), silenced_targets);
    added.len()
}

// The soloed fader itself adds nothing.
#[tactic(auto, using(crate::proofs::Laws::none_adds, crate::proofs::Laws::more_adds))]
fn added_by_peers(peers: &Peers, silenced_targets: &[u16], fader: u8) -> usize
    ensures { result ≡ length (solo_adds (seen_peers peers.now) fader silenced_targets.now 16) }
{
    let mut added = Added::none();
    for (n, peer) in peers.iter().enumerate() {
        let itself = n as u8 + 1 == fader;
        adding(
            &mut added,
            if itself { None } else { *peer },
            silenced_targets,
        );
    }
    added.len()
}

// How many a solo of the fader adds that turns on: a solo that turns off silences none.
#[tactic(auto, unfolding(definition::specs::Muting::added_by_solo), using(solos::proofs::PeersLaws::same_adds))]
pub fn added_by_solo(
    here: &Current<'_>,
    lamps: &Lamps,
    silenced_targets: &[u16],
    fader: u8,
) -> usize
    ensures { result ≡ length (added_by_solo (rig_in here.now) fader lamps.now silenced_targets.now) }
{
    match here.destination(fader) {
        Some(chosen) if lamps.soloed != fader => {
            added_by_peers(&peers_of(here, chosen.group), silenced_targets, fader)
        }
        _ => 0,
    }
}
