#![tactic(auto)]

// The line to the devices in one event: calls go out, and each takes the next answer of the list that the host offers; messages for the surface are
// collected beside them. Once an answer is missing or does not fit, the line stops, and every further call and message does nothing. The port of
// drivers/mod.rs as the bridge sees it.
mod kind;
mod line;
mod lists;
mod parse;

pub use kind::{Kind, UnknownKind};
pub use line::{Io, Stop};
pub use lists::{LiveFaders, Names};

// What a driver is asked: document 01's record, so that its kind is a number and an absent name 0. The level is kept as bits, since a NaN has one pattern
// only.
#[repr(C)]
#[derive(Clone, Copy)]
pub struct Call {
    pub kind: u8,
    pub driver: u8,
    pub name: u16,
    pub argument: u32,
    pub level: u64,
}

// What a driver answered. Unfit stands for a record that is cut short or does not fit its call. Where a list's items stand is said beside it.
#[derive(Clone, Copy)]
pub enum Answer {
    Refused,
    Done,
    Level(f64),
    Nothing,
    YesNo(bool),
    Index(u32),
    List,
    Unfit,
}

// A fader that a live bank has right now, as its driver hands it over.
#[derive(Clone, Copy)]
pub struct LiveFader {
    pub number: u8,
    pub target: u16,
    pub label: u16,
    pub group: u16,
    pub mute: u16,
}
