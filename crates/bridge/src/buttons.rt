// What a pressed button does: `button` of bridge.rs.
ghost use Rattle.std.specs.Prelude.{◌≡◌, Bool, true, false, ◌+◌, ◌≤◌, ◌<◌, eqb, length};
ghost use Rattle.base.specs.Keyed.{no_twice};
ghost use Rattle.protocol.specs.Protocol.{kind_of, channel_of};
ghost use Rattle.profile.specs.Profile.{bank_count};
ghost use Rattle.lookup.specs.Lookup.{select_of};
ghost use Rattle.drivers.specs.Shown.{shown};
ghost use Rattle.session.specs.Session.{seen_silenced, targets_of};
ghost use Rattle.definition.specs.Buttons.{page as page_of, walk as walk_of, rec as rec_of, select_as, or_first, button as button_of};
ghost use Rattle.definition.specs.Banks.{next_bank};
ghost use Rattle.surface.specs.Note.{has_note};
ghost use Rattle.bridge.specs.Which.{bank_by, adds_by};
ghost use Rattle.bridge.specs.Presses.{selected_by, bank_after, PressesHere, PressesThere, Presses, added_of};

use drivers::Io;
use protocol::{Button, Kind};
use rig::{Accepted, Current};
use session::{Lamps, Moves, Silenced};
use surface::Panel;

// What a press leaves beside the lamps and the silenced levels. Where a bank was selected or a scene loaded, `moved`, all marks go and the live bank is due. It is no
// `Left`: a press finds no other live faders, and the definition has a `Pressed` of its own.
#[derive(Clone, Copy)]
pub struct Pressed {
    pub bank: u8,
    pub moved: bool,
    pub saved: bool,
}

impl Pressed {
    // Nothing is selected and nothing loaded.
    fn unmoved(bank: u8) -> Pressed
        ensures { result ≡ record { bank = bank; moved = false; saved = false } }
    {
        Pressed {
            bank,
            moved: false,
            saved: false,
        }
    }
}

// ── presses that leave the silenced levels alone ──

#[tactic(auto, unfolding(drivers::specs::Talk::next, protocol::specs::Protocol::number_of))]
fn rec(io: &mut Io<'_>, here: &Accepted<'_>, panel: &mut Panel<'_>, channel: u8) -> Pressed
    requires bank_bound { here.now.here.bank < 16 }
    requires channel_bound { channel < 8 }
    ensures { PressesHere (rec_of channel) here.now.here panel.old panel.new (shown io.old) result (shown io.new) }
{
    let bank = here.here.bank;
    if commands::rec_loads(io, &here.here) {
        let loaded = scenes::scene(io, here, panel, channel + 1);
        return Pressed {
            bank,
            moved: loaded,
            saved: loaded,
        };
    }
    commands::run_command(io, &here.here, Kind::Rec.number());
    Pressed::unmoved(bank)
}

#[tactic(auto, unfolding(drivers::specs::Talk::next, protocol::specs::Protocol::number_of, definition::specs::Banks::select_bank))]
fn select(
    io: &mut Io<'_>,
    here: &Current<'_>,
    there: &Current<'_>,
    panel: &mut Panel<'_>,
    channel: u8,
) -> Pressed
    requires profile_value { there.now.profile.now ≡ here.now.profile.now }
    requires bank_value { there.now.bank ≡ selected_by here.now.profile.now here.now.bank channel }
    ensures { PressesThere (select_as (select_of here.now.profile.now here.now.bank) channel) here.now there.now panel.old panel.new (shown io.old) result (shown io.new) }
{
    if !lookup::select_is_bank(here.profile, here.bank) {
        commands::run_command(io, here, Kind::Select.number());
        return Pressed::unmoved(here.bank);
    }
    if !lookup::has_bank(here.profile, usize::from(channel)) {
        return Pressed::unmoved(here.bank);
    }
    banks::select_bank(io, there, panel);
    Pressed {
        bank: there.bank,
        moved: true,
        saved: true,
    }
}

#[tactic(auto, unfolding(drivers::specs::Talk::next))]
fn page(io: &mut Io<'_>, here: &Accepted<'_>, panel: &mut Panel<'_>, right: bool) -> Pressed
    requires { here.now.here.bank < 16 }
    ensures { PressesHere (page_of right) here.now.here panel.old panel.new (shown io.old) result (shown io.new) }
{
    let paged = scenes::step_scene(io, here, panel, right);
    Pressed {
        bank: here.here.bank,
        moved: paged.loaded,
        saved: paged.saved,
    }
}

// To the right or to the left: `there` is the bank that is reached.
fn walk(io: &mut Io<'_>, here: &Current<'_>, there: &Current<'_>, panel: &mut Panel<'_>) -> Pressed
    requires profile_value { there.now.profile.now ≡ here.now.profile.now }
    requires bank_bound { here.now.bank < bank_count here.now.profile.now }
    ensures { (right : Bool) → there.now.bank ≡ next_bank right (bank_count here.now.profile.now) here.now.bank → PressesThere (walk_of right) here.now there.now panel.old panel.new (shown io.old) result (shown io.new) }
{
    let selected = banks::step_bank(io, here.bank, there, panel);
    Pressed {
        bank: there.bank,
        moved: selected,
        saved: selected,
    }
}

// A button other than mute and solo: it changes no level. `there` is as in `button`.
#[tactic(auto, using(crate::proofs::PressLaws::low_bank, crate::proofs::PressLaws::bank_right, crate::proofs::PressLaws::bank_down, crate::proofs::PressLaws::bank_left, crate::proofs::PressLaws::bank_up, crate::proofs::PressLaws::bank_selected, crate::proofs::PressLaws::paged_left, crate::proofs::PressLaws::paged_right, crate::proofs::PressLaws::walked_left, crate::proofs::PressLaws::walked_up, crate::proofs::PressLaws::walked_right, crate::proofs::PressLaws::walked_down, crate::proofs::PressLaws::recorded, crate::proofs::PressLaws::selected, crate::proofs::PressLaws::commanded))]
fn panel_button(
    io: &mut Io<'_>,
    here: &Accepted<'_>,
    there: &Current<'_>,
    panel: &mut Panel<'_>,
    b: Button,
) -> Pressed
    requires profile_value { there.now.profile.now ≡ here.now.here.profile.now }
    requires bank_bound { here.now.here.bank < bank_count here.now.here.profile.now }
    requires bank_value { there.now.bank ≡ bank_after here.now.here.profile.now here.now.here.bank b.note }
    requires no_mute { eqb (kind_of b.note) 2 ≡ false }
    requires no_solo { eqb (kind_of b.note) 1 ≡ false }
    ensures { PressesThere (button_of b.note) here.now.here there.now panel.old panel.new (shown io.old) result (shown io.new) }
{
    // One match over the kind: a table of functions would be no plainer.
    match b.kind() {
        Kind::ArrowLeft => page(io, here, panel, false),
        Kind::ArrowRight => page(io, here, panel, true),
        Kind::BankLeft | Kind::ArrowUp | Kind::BankRight | Kind::ArrowDown => {
            walk(io, &here.here, there, panel)
        }
        Kind::Rec => rec(io, here, panel, channel_of(b)),
        Kind::Select => select(io, &here.here, there, panel, channel_of(b)),
        kind => {
            commands::run_command(io, &here.here, kind.number());
            Pressed::unmoved(here.here.bank)
        }
    }
}

// ── all of them ──

// The channel of a channel's button; another's counts as 0.
#[tactic(auto, using(crate::proofs::PressLaws::low_channel))]
fn channel_of(b: Button) -> u8
    ensures value { result ≡ or_first (channel_of b.note) }
    ensures upper_bound { result < 8 }
{
    b.channel().unwrap_or(0)
}

#[tactic(auto, unfolding(crate::specs::Presses::selected_by))]
fn selected_by(profile: &[u8], bank: u8, channel: u8) -> u8
    ensures { result ≡ selected_by profile.now bank channel }
{
    if lookup::select_is_bank(profile, bank) & lookup::has_bank(profile, usize::from(channel)) {
        channel
    } else {
        bank
    }
}

// The bank that is the current one after the press, if there is one.
#[tactic(auto, using(crate::proofs::PressLaws::bank_right, crate::proofs::PressLaws::bank_down, crate::proofs::PressLaws::bank_left, crate::proofs::PressLaws::bank_up, crate::proofs::PressLaws::bank_selected))]
pub fn bank_after(profile: &[u8], bank: u8, press: Option<Button>) -> u8
    requires { bank < 16 }
    ensures { result ≡ bank_by profile.now bank press }
{
    let Some(b) = press else {
        return bank;
    };
    match b.kind() {
        Kind::BankRight | Kind::ArrowDown => banks::next_bank(profile, bank, true),
        Kind::BankLeft | Kind::ArrowUp => banks::next_bank(profile, bank, false),
        Kind::Select => selected_by(profile, bank, channel_of(b)),
        _ => bank,
    }
}

// A pressed button. `there` is the bank that is current after it, with its own faders. Here and there go side by side: most presses look at one of them alone, so
// that a struct of both would be taken apart in each arm. What is known of both is asked for with them.
#[tactic(auto, unfolding(protocol::specs::Protocol::number_of, drivers::specs::Talk::next), using(crate::proofs::ButtonsLaws::mute_room, crate::proofs::PressLaws::other_note, crate::proofs::PressLaws::adds_muted, crate::proofs::PressLaws::adds_soloed, crate::proofs::PressLaws::muted, crate::proofs::PressLaws::soloed))]
pub fn button(
    io: &mut Io<'_>,
    here: &Accepted<'_>,
    there: &Current<'_>,
    lamps: &mut Lamps,
    silenced: &mut Silenced,
    moves: &Moves,
    time: f64,
    b: Button,
) -> Pressed
    requires profile_value { there.now.profile.now ≡ here.now.here.profile.now }
    requires bank_bound { here.now.here.bank < bank_count here.now.here.profile.now }
    requires bank_value { there.now.bank ≡ bank_after here.now.here.profile.now here.now.here.bank b.note }
    requires flash_value { has_note lamps.old.flash ≡ true }
    requires silenced_bound { silenced.old.count ≤ 256 }
    requires levels_value { no_twice eqb (targets_of (seen_silenced silenced.old)) ≡ true }
    requires levels_len_bound { length (seen_silenced silenced.old) + length (added_of here.now.here lamps.old b.note (targets_of (seen_silenced silenced.old))) ≤ 256 }
    ensures presses { Presses (button_of b.note) here.now.here there.now lamps.old (seen_silenced silenced.old) moves.now time (shown io.old) result lamps.new (seen_silenced silenced.new) (shown io.new) }
    ensures silenced_bound_2 { silenced.new.count ≤ 256 }
{
    let fader = channel_of(b) + 1;
    // Seen before any of them: what a mute requires is said of these targets.
    let silenced_targets = silenced.targets();
    match b.kind() {
        Kind::Mute => {
            mutes::mute(io, &here.here, lamps, silenced, fader);
            Pressed::unmoved(here.here.bank)
        }
        Kind::Solo => {
            solos::solo(io, &here.here, lamps, silenced, fader);
            Pressed::unmoved(here.here.bank)
        }
        _ => {
            let mut panel = Panel {
                lamps: *lamps,
                silenced_targets,
                moves,
                time,
            };
            let pressed = panel_button(io, here, there, &mut panel, b);
            *lamps = panel.lamps;
            pressed
        }
    }
}

// The number of targets that the press would silence beside those that are: number 11 is decided by it, before any call.
#[tactic(auto, using(crate::proofs::PressLaws::adds_muted, crate::proofs::PressLaws::adds_soloed))]
pub fn added_by(
    here: &Current<'_>,
    lamps: &Lamps,
    silenced_targets: &[u16],
    press: Option<Button>,
) -> usize
    ensures { result ≡ length (adds_by here.now lamps.now press silenced_targets.now) }
{
    let Some(b) = press else {
        return 0;
    };
    let fader = channel_of(b) + 1;
    match b.kind() {
        Kind::Mute => silencing::added_by_mute(here, silenced_targets, fader),
        Kind::Solo => silencing::added_by_solo(here, lamps, silenced_targets, fader),
        _ => 0,
    }
}
