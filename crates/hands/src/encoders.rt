// Endless knobs: their detents are added up, and the drain applies each sum once, with the last position of each fader.
ghost use Rattle.std.specs.Prelude.{◌≡◌, true, not, ◌+◌, ◌≤◌, take, ◌+ℤ◌};
ghost use Rattle.std.specs.Int.{w32};
ghost use Rattle.std.proofs.Common.{SFits};
ghost use Rattle.base.specs.Keyed.{all_of, find};
ghost use Rattle.lookup.specs.Lookup.{dest_at};
ghost use Rattle.drivers.specs.Shown.{shown};
ghost use Rattle.session.specs.Session.{seen_line, low_channel, turn_at, seen_turns, is_encoder, is_dest};
ghost use Rattle.definition.specs.Rig.{destination};
ghost use Rattle.definition.specs.Faders.{in_range, declined_by, apply_nudge, nudges, write_move, writes};
ghost use Rattle.rig.specs.Seen.{rig_in};
ghost use Rattle.hands.specs.Sums.{SumsFit};
ghost use Rattle.hands.specs.Declined.{number_of, refusal_of};

use drivers::Io;
use rig::Current;
use session::{Line, Move, Turns};

// ── the sums ──

// Why a turn is declined: the causes by their numbers.
#[derive(Clone, Copy)]
pub enum Declined {
    // The sum would leave its range.
    Range = 12,
    // There is no place for one more destination.
    Full,
}

impl Declined {
    // A method and no `From`: contracts say `number_of`, and a call reads the same.
    pub fn number(self) -> u8
        ensures { result ≡ number_of self }
    {
        self as u8
    }
}

fn leaves_range(sum: i32, delta: i32) -> bool
    requires { SFits w32 (sum +ℤ delta) }
    ensures { result ≡ not (in_range (sum +ℤ delta)) }
{
    !(-1000000..=1000000).contains(&(sum + delta))
}

// Whether a turn of record k's encoder is declined.
#[tactic(auto, using(crate::proofs::Laws::out_of_range, crate::proofs::Laws::within_range, crate::proofs::Laws::no_place, crate::proofs::Laws::a_place))]
pub fn turn_declined(profile: &[u8], turns: &Turns, k: u16, delta: i32) -> Result<(), Declined>
    requires count_bound { turns.now.count ≤ 136 }
    requires records_value { all_of (is_encoder profile.now) (take turns.now.count turns.now.records) ≡ true }
    requires k_value { is_encoder profile.now k ≡ true }
    requires sums_fit { SumsFit turns.now.sums turns.now.count delta }
    ensures { refusal_of result ≡ declined_by (find (is_dest (dest_at profile.now k)) (seen_turns profile.now turns.now)) delta (seen_turns profile.now turns.now) }
{
    let dest = lookup::destination_at(profile, usize::from(k));
    match session::find_turn(profile, turns.records(), dest) {
        Some(i) if leaves_range(turns.sums[i], delta) => Err(Declined::Range),
        Some(_) => Ok(()),
        None if turns.count == turns.records.len() => Err(Declined::Full),
        None => Ok(()),
    }
}

// ── the drain ──

// One read and, if the device can be read, one write.
#[tactic(auto, unfolding(definition::specs::Faders::apply_nudge))]
fn apply_nudge(io: &mut Io<'_>, profile: &[u8], k: u16, sum: i32)
    requires { is_encoder profile.now k ≡ true }
    ensures { shown io.new ≡ apply_nudge (turn_at profile.now k sum) (shown io.old) }
{
    if sum == 0 {
        return;
    }
    let dest = lookup::destination_at(profile, usize::from(k));
    if let Some(level) = rig::levels::read(io, dest) {
        rig::levels::write(io, dest, float::nudged(level, sum));
    }
}

// One read and one write for each sum that is not 0.
pub fn drain_turns(io: &mut Io<'_>, profile: &[u8], turns: &Turns)
    requires count_bound { turns.now.count ≤ 136 }
    requires records_value { all_of (is_encoder profile.now) (take turns.now.count turns.now.records) ≡ true }
    ensures { shown io.new ≡ nudges (seen_turns profile.now turns.now) (shown io.old) }
{
    for (k, sum) in turns.records().iter().zip(turns.sums()) {
        apply_nudge(io, profile, *k, *sum);
    }
}

// The position that is sent with a write that was done aligns the lamp. A move whose channel has no destination now is dropped.
fn drain_move(io: &mut Io<'_>, here: &Current<'_>, m: Move)
    requires { low_channel m ≡ true }
    ensures { shown io.new ≡ write_move (rig_in here.now).positions (destination (rig_in here.now) (m.channel + 1)) m (shown io.old) }
{
    let Some(dest) = here.destination(m.channel + 1) else {
        return;
    };
    if rig::levels::write(io, dest, m.level) && lookup::positions(here.profile) {
        io.send_position(m.channel, m.level);
    }
}

// The last position of each fader.
#[tactic(auto, using(crate::proofs::Laws::one_write, crate::proofs::Laws::all_written, crate::proofs::Laws::low_at))]
pub fn drain_line(io: &mut Io<'_>, here: &Current<'_>, line: &Line)
    requires count_bound { line.now.count ≤ 16 }
    requires channels { all_of low_channel (seen_line line.now) ≡ true }
    ensures { shown io.new ≡ writes (rig_in here.now) (seen_line line.now) (shown io.old) }
{
    for m in line.moves() {
        drain_move(io, here, *m);
    }
}
