#![tactic(auto)]

// Solo: only one fader's destination plays, within its own group. On gear with and without a mute of its own.
pub mod peers;

ghost use Rattle.std.specs.Prelude.{◌≡◌, true, ◌+◌, ◌≤◌, eqb, length};
ghost use Rattle.base.specs.Keyed.{no_twice};
ghost use Rattle.drivers.specs.Talk.{got};
ghost use Rattle.drivers.specs.Shown.{shown};
ghost use Rattle.session.specs.Session.{seen_silenced, targets_of, is_silenced, has_room};
ghost use Rattle.definition.specs.Levels.{kept_by};
ghost use Rattle.definition.specs.Muting.{back_if, off_to, solo_off, note_if, silence_if, on_to, solo_on, solo_adds, added_by_solo, solo as solo_of};
ghost use Rattle.rig.specs.Seen.{rig_in};
ghost use Rattle.solos.specs.Peers.{seen_peers, room_to, soloed_as};
ghost use Rattle.solos.specs.Turns.{turned_off, turned_on};

use drivers::Io;
use lookup::Destination;
use peers::Peers;
use rig::{Current, levels};
use session::{Lamps, Silenced};

// What is silenced without a mute is handed back; another plays already.
#[tactic(auto, using(mutes::proofs::HeldLaws::held_some, mutes::proofs::HeldLaws::held_none))]
fn hand_back_kept(io: &mut Io<'_>, dest: Destination, silenced: &mut Silenced)
    requires { silenced.old.count ≤ 256 }
    ensures line { got (seen_silenced silenced.new) (shown io.new) ≡ back_if (is_silenced (kept_by dest) (targets_of (seen_silenced silenced.old))) dest (seen_silenced silenced.old) (shown io.old) }
    ensures upper_bound { silenced.new.count ≤ 256 }
{
    if let Some(before) = silenced.level(levels::kept_by(dest)) {
        mutes::hand_back(io, dest, silenced, before);
    }
}

// ── off ──

// A peer goes back to what it was before the solo.
fn unsolo_peer(io: &mut Io<'_>, peer: Option<Destination>, was: bool, silenced: &mut Silenced)
    requires { silenced.old.count ≤ 256 }
    ensures line { got (seen_silenced silenced.new) (shown io.new) ≡ off_to peer was (seen_silenced silenced.old) (shown io.old) }
    ensures upper_bound { silenced.new.count ≤ 256 }
{
    let Some(dest) = peer else {
        return;
    };
    if levels::has_mute(dest) {
        mutes::set_mute(io, dest, was);
    } else {
        hand_back_kept(io, dest, silenced);
    }
}

#[tactic(auto, using(crate::proofs::Laws::none_off, crate::proofs::Laws::more_off))]
fn solo_off(io: &mut Io<'_>, peers: &Peers, lamps: &Lamps, silenced: &mut Silenced)
    requires { silenced.old.count ≤ 256 }
    ensures line { got (seen_silenced silenced.new) (shown io.new) ≡ solo_off (seen_peers peers.now) lamps.now 16 (seen_silenced silenced.old) (shown io.old) }
    ensures upper_bound { silenced.new.count ≤ 256 }
{
    for (n, peer) in peers.iter().enumerate() {
        let was = lamps.was_muted(n as u8 + 1);
        unsolo_peer(io, *peer, was, silenced);
    }
}

// ── on ──

// What each peer's mute is before the solo. A second solo keeps what the first noted.
#[tactic(auto, using(crate::proofs::Laws::none_noted_yet, crate::proofs::Laws::more_noted))]
fn note_mutes(io: &mut Io<'_>, peers: &Peers, silenced_targets: &[u16], lamps: &mut Lamps)
    ensures { got lamps.new (shown io.new) ≡ note_if (eqb lamps.old.soloed 0) (seen_peers peers.now) silenced_targets.now lamps.old (shown io.old) }
{
    if lamps.soloed != 0 {
        return;
    }
    lamps.none_noted();
    for (n, peer) in peers.iter().enumerate() {
        let muted = surface::lamps::is_muted(io, *peer, silenced_targets);
        lamps.note_muted(n as u8 + 1, muted);
    }
}

// Silenced without a mute: its level is kept, unless it is already, and its low end written.
#[tactic(auto, unfolding(drivers::specs::Talk::next))]
fn silence(io: &mut Io<'_>, dest: Destination, silenced: &mut Silenced)
    requires count_bound { silenced.old.count ≤ 256 }
    requires room { has_room (kept_by dest) (targets_of (seen_silenced silenced.old)) ≡ true }
    ensures line { got (seen_silenced silenced.new) (shown io.new) ≡ silence_if (is_silenced (kept_by dest) (targets_of (seen_silenced silenced.old))) dest (seen_silenced silenced.old) (shown io.old) }
    ensures upper_bound { silenced.new.count ≤ 256 }
{
    if !session::is_silenced(silenced.targets(), levels::kept_by(dest)) {
        mutes::keep_level(io, dest, silenced);
    }
    levels::write(io, dest, 0.0);
}

// A peer is silenced, or, being the soloed fader itself, plays.
fn solo_peer(
    io: &mut Io<'_>,
    peer: Option<Destination>,
    insert_level: bool,
    silenced: &mut Silenced,
)
    requires count_bound { silenced.old.count ≤ 256 }
    requires room { room_to peer insert_level (targets_of (seen_silenced silenced.old)) ≡ true }
    ensures line { got (seen_silenced silenced.new) (shown io.new) ≡ on_to peer insert_level (seen_silenced silenced.old) (shown io.old) }
    ensures upper_bound { silenced.new.count ≤ 256 }
{
    let Some(dest) = peer else {
        return;
    };
    if levels::has_mute(dest) {
        mutes::set_mute(io, dest, insert_level);
    } else if insert_level {
        silence(io, dest, silenced);
    } else {
        hand_back_kept(io, dest, silenced);
    }
}

// That no target is there twice is asked for, here and below: C may hand any targets, so that no type holds it.
// Every peer but the fader itself is silenced.
#[tactic(auto, using(crate::proofs::Laws::none_on, crate::proofs::Laws::more_on))]
fn solo_on(io: &mut Io<'_>, peers: &Peers, fader: u8, silenced: &mut Silenced)
    requires count_bound { silenced.old.count ≤ 256 }
    requires once { no_twice eqb (targets_of (seen_silenced silenced.old)) ≡ true }
    requires room { length (seen_silenced silenced.old) + length (solo_adds (seen_peers peers.now) fader (targets_of (seen_silenced silenced.old)) 16) ≤ 256 }
    ensures line { got (seen_silenced silenced.new) (shown io.new) ≡ solo_on (seen_peers peers.now) fader 16 (seen_silenced silenced.old) (shown io.old) }
    ensures upper_bound { silenced.new.count ≤ 256 }
{
    for (n, peer) in peers.iter().enumerate() {
        solo_peer(io, *peer, n as u8 + 1 != fader, silenced);
    }
}

// ── either ──

#[tactic(auto, unfolding(drivers::specs::Talk::next))]
fn turn_off(io: &mut Io<'_>, peers: &Peers, lamps: &mut Lamps, silenced: &mut Silenced)
    requires { silenced.old.count ≤ 256 }
    ensures line { got (soloed_as lamps.new (seen_silenced silenced.new)) (shown io.new) ≡ turned_off (seen_peers peers.now) lamps.old (seen_silenced silenced.old) (shown io.old) }
    ensures upper_bound { silenced.new.count ≤ 256 }
{
    solo_off(io, peers, lamps, silenced);
    lamps.none_noted();
    lamps.solo_to(0);
}

#[tactic(auto, unfolding(drivers::specs::Talk::next))]
fn turn_on(io: &mut Io<'_>, peers: &Peers, lamps: &mut Lamps, fader: u8, silenced: &mut Silenced)
    requires count_bound { silenced.old.count ≤ 256 }
    requires once { no_twice eqb (targets_of (seen_silenced silenced.old)) ≡ true }
    requires room { length (seen_silenced silenced.old) + length (solo_adds (seen_peers peers.now) fader (targets_of (seen_silenced silenced.old)) 16) ≤ 256 }
    ensures line { got (soloed_as lamps.new (seen_silenced silenced.new)) (shown io.new) ≡ turned_on (seen_peers peers.now) fader lamps.old (seen_silenced silenced.old) (shown io.old) }
    ensures upper_bound { silenced.new.count ≤ 256 }
{
    note_mutes(io, peers, silenced.targets(), lamps);
    solo_on(io, peers, fader, silenced);
    lamps.solo_to(fader);
}

// Only this fader's destination plays, within its own group.
#[tactic(auto, unfolding(definition::specs::Muting::solo))]
pub fn solo(
    io: &mut Io<'_>,
    here: &Current<'_>,
    lamps: &mut Lamps,
    silenced: &mut Silenced,
    fader: u8,
)
    requires count_bound { silenced.old.count ≤ 256 }
    requires once { no_twice eqb (targets_of (seen_silenced silenced.old)) ≡ true }
    requires room { length (seen_silenced silenced.old) + length (added_by_solo (rig_in here.now) fader lamps.old (targets_of (seen_silenced silenced.old))) ≤ 256 }
    ensures line { got (soloed_as lamps.new (seen_silenced silenced.new)) (shown io.new) ≡ solo_of (rig_in here.now) fader lamps.old (seen_silenced silenced.old) (shown io.old) }
    ensures upper_bound { silenced.new.count ≤ 256 }
{
    let Some(chosen) = here.destination(fader) else {
        return;
    };
    let peers = peers::peers_of(here, chosen.group);
    if lamps.soloed == fader {
        turn_off(io, &peers, lamps, silenced);
    } else {
        turn_on(io, &peers, lamps, fader, silenced);
    }
    surface::lamps::push_state(io, here, lamps, silenced.targets());
}
