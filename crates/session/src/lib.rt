#![tactic(auto)]

// What the bridge keeps between two events: the port of `struct Bridge`. Plain fields in groups, by who may change them. What stands in a list past its
// count is free.
mod desk;
mod faders;
mod muting;
mod shown;

ghost use Rattle.std.specs.Prelude.{◌≡◌};
ghost use Rattle.session.specs.Session.{fresh_session};

pub use desk::find_turn;
pub use muting::is_silenced;

// ── where we are ──

// A live bank's fader, as its driver handed it over last.
#[repr(C)]
#[derive(Clone, Copy)]
pub struct Strip {
    pub number: u8,
    pub driver: u8,
    pub target: u16,
    pub label: u16,
    pub group: u16,
    pub mute: u16,
}

// The faders of one bank; not known until its driver was asked.
#[repr(C)]
#[derive(Clone, Copy)]
pub struct Strips {
    pub known: bool,
    pub list: [Strip; 8],
    pub count: usize,
}

#[repr(C)]
#[derive(Clone, Copy)]
pub struct Live {
    pub banks: [Strips; 16],
}

// ── the desk: by bank * 16 + channel, and what waits for the next drain ──

// Faders that are in control of their destination.
#[repr(C)]
#[derive(Clone, Copy)]
pub struct Marks {
    pub on: [bool; 256],
}

// The last position seen of each fader.
#[repr(C)]
#[derive(Clone, Copy)]
pub struct Moves {
    pub known: [bool; 256],
    pub level: [f64; 256],
}

#[repr(C)]
#[derive(Clone, Copy)]
pub struct Move {
    pub channel: u8,
    pub level: f64,
}

#[repr(C)]
#[derive(Clone, Copy)]
pub struct Line {
    pub list: [Move; 16],
    pub count: usize,
}

// The encoders' detents that wait: the sums by the first turn, side by side with the profile's records of their encoders.
#[repr(C)]
#[derive(Clone, Copy)]
pub struct Turns {
    pub records: [u16; 136],
    pub sums: [i32; 136],
    pub count: usize,
}

// ── the lamps ──

// A number shown as a grid, played out as timed steps; sent counts the phases sent.
#[repr(C)]
#[derive(Clone, Copy)]
pub struct Flash {
    pub on: bool,
    pub start: f64,
    pub row: u8,
    pub base: u8,
    pub column: u8,
    pub sent: u8,
}

// The soloed fader and the one whose scene was loaded last, from 1, or 0, which is none and crosses to C as it is; mutes before a solo by fader - 1; the scene position of each bank, if it is known.
#[repr(C)]
#[derive(Clone, Copy)]
pub struct Lamps {
    pub soloed: u8,
    pub loaded: u8,
    pub before: [bool; 16],
    pub known: [bool; 16],
    pub scenes: [u32; 16],
    pub flash: Flash,
}

// The levels of targets that were silenced without a mute, side by side with their targets.
#[repr(C)]
#[derive(Clone, Copy)]
pub struct Silenced {
    pub targets: [u16; 256],
    pub levels: [f64; 256],
    pub count: usize,
}

// ── all of it ──

// It crosses to C, in memory of one fixed size: so a flag has its value beside it (known and level, on and start, livedue and liveat), a list its count, and two arrays stand side by
// side (records and sums, targets and levels), where Option, Vec and a list of pairs would not cross. C hands these structs on, and may hand
// any: so no type can hold the bounds of their counts, and the methods ask for them.
#[repr(C)]
#[derive(Clone, Copy)]
pub struct Session {
    pub bank: u8,
    pub livedue: bool,
    pub liveat: f64,
    pub live: Live,
    pub marks: Marks,
    pub moves: Moves,
    pub line: Line,
    pub turns: Turns,
    pub lamps: Lamps,
    pub silenced: Silenced,
    pub opened: [bool; 16],
}

// What Bridge::new makes, no driver opened.
pub fn fresh() -> Session
    ensures { result ≡ fresh_session }
{
    Session {
        bank: 0,
        livedue: true,
        liveat: 0.0,
        live: Live::unasked(),
        marks: Marks::none(),
        moves: Moves::none(),
        line: Line::none(),
        turns: Turns::none(),
        lamps: Lamps::none(),
        silenced: Silenced::none(),
        opened: [false; 16],
    }
}
