#![tactic(auto)]

// Every lookup that the bridge makes in a profile. `specs/View.antt` offers them to the definition as one record. Each takes the profile, and a bank's number where
// it needs one: globals and other banks than the current one are looked up too, so that a struct of both would be no plainer.
ghost use Rattle.std.specs.Prelude.{◌≡◌, ◌<◌, ◌≤◌, ltb, length, get_or, None, IfSome};
ghost use Rattle.std.specs.Option.{option_map};
ghost use Rattle.profile.specs.Profile.{records, bank_count, verdict};
ghost use Rattle.lookup.specs.Lookup.{or_absent, named, positions_of, remember_of, is_entry, entry, half_of, byte_of, bank_at, name_of, device_of, live_of, rec_of, rec_named, select_of, bank_named, dest_at, fader_of, encoder_place, same_dest, scenes_of, position, button_of, command_at, entry_at, transports_of, transport_of, before, place, merged, times, most_common};

mod lists;
mod walk;

pub use lists::{Buttons, Drivers};
use profile::record::{self, Record};
use walk::{of_part, up_to};

// The name number of what is not there.
pub const ABSENT: u16 = 65535;

// The bank number of what belongs to every bank.
pub const GLOBALS: u8 = 255;

#[derive(Clone, Copy, PartialEq)]
pub struct Destination {
    pub driver: u8,
    pub target: u16,
    pub label: u16,
    pub group: u16,
    pub mute: u16,
    pub takeover: bool,
    pub low: f64,
    pub high: f64,
}

#[derive(Clone, Copy)]
pub struct Command {
    pub driver: u8,
    pub target: u16,
    pub command: u16,
}

// What R does: it loads a scene, or something else, by its number in the profile.
#[derive(Clone, Copy)]
pub enum Rec {
    Scene,
    Other(u8),
}

// A transport button and what it runs. The kind is the profile's number, as kinds of records are.
#[derive(Clone, Copy)]
pub struct Entry {
    pub kind: u8,
    pub command: Command,
}

// ── settings ──

// The byte at a place of the profile, 0 past its end.
fn byte_or_zero(profile: &[u8], at: usize) -> u8
    ensures { result ≡ get_or profile.now at 0 }
{
    profile.get(at).copied().unwrap_or(0)
}

pub fn positions(profile: &[u8]) -> bool
    ensures { result ≡ positions_of profile.now }
{
    byte_or_zero(profile, 2) == 1
}

pub fn remember(profile: &[u8]) -> bool
    ensures { result ≡ remember_of profile.now }
{
    byte_or_zero(profile, 3) == 1
}

// ── records ──

// A record's kind, 1 to 6, stays the profile's number: kinds are compared by order, and a byte may be no kind.

#[tactic(auto, unfolding(base::specs::Range::every))]
fn is_entry(row: Record, kind: u8, part: u8, number: u8) -> bool
    ensures { result ≡ is_entry row.entry.profile.now kind part number row.entry.k }
{
    row.kind() == kind && row.part() == part && row.number() == number
}

// The first record of the kind, the part and the number.
fn find(profile: &[u8], kind: u8, part: u8, number: u8) -> Option<Record>
    ensures place { option_map (λ r. r.k) result ≡ entry profile.now kind part number }
    ensures in_profile { IfSome result (λ r. r.profile.now ≡ profile.now) }
{
    up_to(profile, kind).find(|row| is_entry(*row, kind, part, number))
}

// The name, if it is one.
#[tactic(auto, unfolding(crate::specs::Lookup::named))]
fn named(name: u16) -> Option<u16>
    ensures { result ≡ named name }
{
    if name == ABSENT { None } else { Some(name) }
}

// Two bytes of the first record of the kind, the part and the number, 65535 if there is none. They are the profile's own number; `named` makes the Option.
fn half_of(profile: &[u8], kind: u8, part: u8, number: u8, o: usize) -> u16
    requires { o ≤ 30 }
    ensures { result ≡ half_of profile.now o 65535 (entry profile.now kind part number) }
{
    find(profile, kind, part, number).map_or(ABSENT, |row| row.half(o))
}

// A byte of the bank's record, 0 if there is none.
fn bank_byte(profile: &[u8], bank: u8, o: usize) -> u8
    requires { o < 32 }
    ensures { result ≡ byte_of profile.now o 0 (bank_at profile.now bank) }
{
    find(profile, 1, bank, 0).map_or(0, |row| row.byte(o))
}

// ── banks ──

// There is a bank of this number. The walk ends where that is known.
pub fn has_bank(profile: &[u8], bank: usize) -> bool
    ensures { result ≡ ltb bank (bank_count profile.now) }
{
    (0..record::count(profile))
        .filter(|k| Record::at(profile, *k).kind() == 1)
        .nth(bank)
        .is_some()
}

pub fn bank_count(profile: &[u8]) -> usize
    ensures { result ≡ bank_count profile.now }
{
    record::count_kind(profile, 1)
}

// The profile's own number, 65535 for none.
pub fn bank_name(profile: &[u8], bank: u8) -> u16
    ensures { result ≡ name_of profile.now bank }
{
    half_of(profile, 1, bank, 0, 4)
}

// The bank's own driver.
pub fn device_of(profile: &[u8], bank: u8) -> Option<u16>
    ensures { result ≡ named (device_of profile.now bank) }
{
    named(half_of(profile, 1, bank, 0, 6))
}

pub fn live_of(profile: &[u8], bank: u8) -> Option<u16>
    ensures { result ≡ named (live_of profile.now bank) }
{
    named(half_of(profile, 1, bank, 0, 8))
}

// What the bank says of R, where it says anything.
pub fn rec_action(profile: &[u8], bank: u8) -> Option<Rec>
    ensures { result ≡ rec_named (rec_of profile.now bank) }
{
    match bank_byte(profile, bank, 10) {
        0 => None,
        1 => Some(Rec::Scene),
        other => Some(Rec::Other(other)),
    }
}

pub fn select_is_bank(profile: &[u8], bank: u8) -> bool
    ensures { result ≡ select_of profile.now bank }
{
    bank_byte(profile, bank, 11) == 1
}

// ── faders and encoders ──

impl Destination {
    // What a fader or an encoder is bound to.
    fn of(row: Record) -> Destination
        ensures { result ≡ dest_at row.entry.profile.now row.entry.k }
    {
        Destination {
            driver: row.byte(4),
            target: row.half(6),
            label: row.half(8),
            group: row.half(10),
            mute: row.half(12),
            takeover: row.byte(3) == 1,
            low: row.double(16),
            high: row.double(24),
        }
    }
}

pub fn destination_at(s: &[u8], k: usize) -> Destination
    requires { k < records s.now }
    ensures { result ≡ dest_at s.now k }
{
    Destination::of(Record::at(s, k))
}

// A fader of one bank or of the globals.
#[tactic(auto, unfolding(crate::specs::Lookup::control_of))]
pub fn fader(profile: &[u8], bank: u8, number: u8) -> Option<Destination>
    ensures { result ≡ fader_of profile.now bank number }
{
    find(profile, 2, bank, number).map(Destination::of)
}

// The record of the globals' encoder or else of the bank's.
#[tactic(auto, unfolding(crate::specs::Lookup::encoder_place))]
pub fn encoder_record(profile: &[u8], bank: u8, number: u8) -> Option<usize>
    ensures { result ≡ encoder_place profile.now bank number }
{
    find(profile, 3, GLOBALS, number)
        .or_else(|| find(profile, 3, bank, number))
        .map(|row| row.k)
}

// Rust's == on every field: -0.0 equals 0.0.
#[tactic(auto, unfolding(crate::specs::Lookup::same_dest, base::specs::Range::every))]
pub fn same(a: Destination, b: Destination) -> bool
    ensures { result ≡ same_dest a b }
{
    a == b
}

// ── scenes ──

pub fn scene_count(profile: &[u8], bank: u8) -> usize
    ensures { result ≡ length (scenes_of profile.now bank) }
{
    of_part(profile, 4, bank).count()
}

// The name of the bank's n-th scene, from 0.
pub fn scene_name(profile: &[u8], bank: u8, n: usize) -> Option<u16>
    ensures { or_absent result ≡ get_or (scenes_of profile.now bank) n 65535 }
{
    of_part(profile, 4, bank).nth(n).map(|row| row.half(4))
}

// The first position of a name in the bank's list of scenes.
pub fn scene_position(profile: &[u8], bank: u8, name: u16) -> Option<usize>
    ensures { result ≡ position name (scenes_of profile.now bank) }
{
    of_part(profile, 4, bank).position(|row| row.half(4) == name)
}

// ── default buttons ──

// The command of a driver's first default button of the kind.
pub fn default_command(profile: &[u8], driver: u8, kind: u8) -> Option<u16>
    ensures { result ≡ named (button_of profile.now driver kind) }
{
    named(half_of(profile, 6, driver, kind, 4))
}

// ── the names of banks ──

// The first bank of the name.
pub fn bank_named(profile: &[u8], name: u16) -> Option<u8>
    requires { verdict profile.now ≡ 0 }
    ensures { result ≡ bank_named profile.now name }
{
    let banks = bank_count(profile) as u8;
    (0..banks).find(|bank| bank_name(profile, *bank) == name)
}

// ── transport ──

impl Command {
    // What a transport button runs.
    fn of(row: Record) -> Command
        ensures { result ≡ command_at row.entry.profile.now row.entry.k }
    {
        Command {
            driver: row.byte(4),
            target: row.half(6),
            command: row.half(8),
        }
    }
}

impl Entry {
    fn of(row: Record) -> Entry
        ensures { result ≡ entry_at row.entry.profile.now row.entry.k }
    {
        Entry {
            kind: row.number(),
            command: Command::of(row),
        }
    }
}

// The first of its kind in one bank or in the globals.
pub fn transport(profile: &[u8], bank: u8, kind: u8) -> Option<Command>
    ensures { result ≡ transport_of kind (transports_of profile.now bank) }
{
    find(profile, 5, bank, kind).map(Command::of)
}

// The globals' transport or else the bank's.
pub fn transport_in_reach(profile: &[u8], bank: u8, kind: u8) -> Option<Command>
    ensures { result ≡ before (transport_of kind (transports_of profile.now 255)) (transport_of kind (transports_of profile.now bank)) }
{
    transport(profile, GLOBALS, kind).or_else(|| transport(profile, bank, kind))
}

// The list of lamps: the bank's entries in file order, each global entry in the place of the first of its kind, or behind.
pub fn transports(profile: &[u8], bank: u8) -> Buttons
    requires { verdict profile.now ≡ 0 }
    ensures { result ≡ merged (transports_of profile.now 255) (transports_of profile.now bank) }
{
    let mut buttons = Buttons::none();
    for row in of_part(profile, 5, bank) {
        buttons.push(Entry::of(row));
    }
    for row in of_part(profile, 5, GLOBALS) {
        buttons.put(Entry::of(row));
    }
    buttons
}

// ── the driver that most faders have ──

fn times_in(drivers: &[u8], driver: u8) -> usize
    ensures { result ≡ times driver drivers.now }
{
    drivers.iter().filter(|d| **d == driver).count()
}

// The first of the most frequent.
pub fn most_common(drivers: &[u8]) -> Option<u8>
    ensures value { or_absent result ≡ most_common drivers.now }
    ensures named { result ≡ named (most_common drivers.now) }
{
    let mut best = None;
    let mut often = 0;
    for driver in drivers {
        let times = times_in(drivers, *driver);
        if often < times {
            best = Some(*driver);
            often = times;
        }
    }
    best
}
