#![tactic(auto, using(crate::proofs::Laws::all_by_list), unfolding(base::specs::Range::every, definition::specs::Shape::shaped_line, definition::specs::Shape::shaped_strips, session::specs::Session::seen_strips, definition::specs::Shape::shaped_flash, definition::specs::Shape::well_shaped))]

// Number 8: whether a session is well shaped. The tests that no key is there twice compare each pair: at most 120 pairs of channels, 28 of live numbers in a
// bank, 9,180 of destinations and 32,640 of targets, where the lists are full.
ghost use Rattle.std.specs.Prelude.{◌≡◌, Bool, true, false, ◌<◌, eqb, not, length, get_or, take, slice_get};
ghost use Rattle.std.specs.List.{list_all, list_any};
ghost use Rattle.std.specs.Option.{option_map, unwrap_or};
ghost use Rattle.base.specs.Keyed.{all_of, no_twice};
ghost use Rattle.session.specs.Session.{is_encoder, no_move, same_channel, low_channel, no_strip, same_number, good_strip};
ghost use Rattle.definition.specs.Faders.{in_range};
ghost use Rattle.definition.specs.Shape.{shaped_line, shaped_strips, same_wire, shaped_turns, shaped_silenced, shaped_flash, well_shaped};

use profile::record::{self, Record};
use session::{Flash, Line, Live, Move, Session, Silenced, Strip, Strips, Turns};

// ── none twice ──

// What no two entries of a list may share: a move's channel, a fader's number, a target.
trait Keyed {
    ghost same: { Self → Self → Bool };

    fn same(&self, other: &Self) -> bool
        ensures { result ≡ same self.now other.now };
}

impl Keyed for Move {
    ghost same = { same_channel };

    fn same(&self, other: &Move) -> bool {
        self.channel == other.channel
    }
}

impl Keyed for Strip {
    ghost same = { same_number };

    fn same(&self, other: &Strip) -> bool {
        self.number == other.number
    }
}

impl Keyed for u16 {
    ghost same = { eqb };

    fn same(&self, other: &u16) -> bool {
        self == other
    }
}

// The i-th is the same as one before it.
fn is_again<T: Keyed>(list: &[T], i: usize) -> bool
    requires { i < length list.now }
    ensures { result ≡ unwrap_or (option_map (λ x. list_any (λ z. T.same z x) (take i list.now)) (slice_get list.now i)) false }
{
    let x = &list[i];
    list[..i].iter().any(|z| z.same(x))
}

fn none_twice<T: Keyed>(list: &[T]) -> bool
    ensures { result ≡ no_twice T.same list.now }
{
    (0..list.len()).all(|i| !is_again(list, i))
}

// ── the line ──

fn low_channels(moves: &[Move]) -> bool
    ensures { result ≡ list_all low_channel moves.now }
{
    moves.iter().all(|m| m.channel <= 15)
}

// A channel is at most 15, and in the line once.
fn shaped_line(line: &Line) -> bool
    ensures { result ≡ shaped_line line.now }
{
    if 16 < line.count {
        return false;
    }
    let moves = line.moves();
    low_channels(moves) && none_twice(moves)
}

// ── live lists ──

fn good_strips(strips: &[Strip]) -> bool
    ensures { result ≡ list_all good_strip strips.now }
{
    strips
        .iter()
        .all(|s| (1 <= s.number) & ((s.number <= 8) & (s.driver <= 15)))
}

// A bank that is not known is passed over without a look at its faders. A number is 1 to 8, and in the bank once; a driver is at most 15.
fn shaped_strips(strips: &Strips) -> bool
    ensures { result ≡ shaped_strips strips.now }
{
    if !strips.known {
        return true;
    }
    if 8 < strips.count {
        return false;
    }
    let list = strips.as_slice();
    good_strips(list) && none_twice(list)
}

fn shaped_live(live: &Live) -> bool
    ensures { result ≡ list_all shaped_strips live.now.banks }
{
    live.banks.iter().all(shaped_strips)
}

// ── the sums ──

// Record k is there, and an encoder's.
fn is_encoder(profile: &[u8], k: u16) -> bool
    ensures { result ≡ is_encoder profile.now k }
{
    let k = usize::from(k);
    k < record::count(profile) && Record::at(profile, k).kind() == 3
}

fn all_encoders(profile: &[u8], records: &[u16]) -> bool
    ensures { result ≡ list_all (is_encoder profile.now) records.now }
{
    records.iter().all(|k| is_encoder(profile, *k))
}

fn sums_in_range(sums: &[i32]) -> bool
    ensures { result ≡ list_all in_range sums.now }
{
    sums.iter().all(|sum| (-1000000..=1000000).contains(sum))
}

// Record i wires its encoder to another destination than those before it. No `Keyed`: what two records share is told by the profile, which is no part of them.
fn new_destination(profile: &[u8], records: &[u16], i: usize) -> bool
    requires records_value { all_of (is_encoder profile.now) records.now ≡ true }
    requires i_in_bounds { i < length records.now }
    ensures { result ≡ not (list_any (λ k. same_wire profile.now k (get_or records.now i 0)) (take i records.now)) }
{
    let d = lookup::destination_at(profile, usize::from(records[i]));
    session::find_turn(profile, &records[..i], d).is_none()
}

fn no_destination_twice(profile: &[u8], records: &[u16]) -> bool
    requires { all_of (is_encoder profile.now) records.now ≡ true }
    ensures { result ≡ no_twice (same_wire profile.now) records.now }
{
    (0..records.len()).all(|i| new_destination(profile, records, i))
}

#[tactic(auto, using(crate::proofs::Laws::all_by_list), unfolding(definition::specs::Shape::shaped_turns, base::specs::Range::every))]
fn shaped_turns(profile: &[u8], turns: &Turns) -> bool
    ensures { result ≡ shaped_turns profile.now turns.now }
{
    if 136 < turns.count {
        return false;
    }
    let records = turns.records();
    if !all_encoders(profile, records) {
        return false;
    }
    sums_in_range(turns.sums()) && no_destination_twice(profile, records)
}

// ── silenced levels ──

#[tactic(auto, using(session::proofs::SessionLaws::targets_seen), unfolding(definition::specs::Shape::shaped_silenced))]
fn shaped_silenced(silenced: &Silenced) -> bool
    ensures { result ≡ shaped_silenced silenced.now }
{
    if 256 < silenced.count {
        return false;
    }
    none_twice(silenced.targets())
}

// ── the flash ──

fn shaped_flash(flash: Flash) -> bool
    ensures { result ≡ shaped_flash flash }
{
    if !flash.on {
        return true;
    }
    (flash.row <= 7)
        & ((flash.column <= 7)
            & (((flash.base == 0) | (flash.base == 8)) & ((1 <= flash.sent) & (flash.sent <= 6))))
}

// ── all of it ──

// The bank is there, and the line, the live lists, the sums, the silenced levels and the flash are well shaped.
pub fn shaped(profile: &[u8], session: &Session) -> bool
    ensures { result ≡ well_shaped profile.now session.now }
{
    lookup::has_bank(profile, usize::from(session.bank))
        && shaped_line(&session.line)
        && shaped_live(&session.live)
        && shaped_turns(profile, &session.turns)
        && shaped_silenced(&session.silenced)
        && shaped_flash(session.lamps.flash)
}
