// The uses of a driver, each alone on its answers, and what the bridge gets of it.
use crate::got::Got;
use drivers::{Io, Kind, Stop};
use std::fmt;

// The driver that is used.
const DRIVER: u8 = 3;

// What a use gave, and how many answers it used. Where the line stopped, there is only why.
#[derive(Drop)]
struct Used<'a> {
    io: Io<'a>,
    got: Got,
}

impl fmt::Display for Used<'_> {
    fn fmt<W: fmt::Write>(&self, f: &mut fmt::Formatter<W>) -> fmt::Result {
        match self.io.stop {
            Stop::Going => {
                let got = &self.got;
                let used = self.io.read / 16;
                write!(f, "{got} used {used}")
            }
            Stop::Waits(_) => f.write_str(" waiting"),
            Stop::Declined => f.write_str(" 14"),
            Stop::Overrun => f.write_str(" overrun"),
        }
    }
}

// The use that makes a call of the kind.
fn got_by(kind: Kind, io: &mut Io<'_>) -> Got {
    // One match over the kind: a table of functions would be no plainer.
    match kind {
        Kind::Open => Got::Done(io.open(DRIVER)),
        Kind::Read => Got::Level(io.read(DRIVER, 7)),
        Kind::Write => Got::Done(io.write(DRIVER, 7, 0.5)),
        Kind::Toggle => Got::Done(io.toggle(DRIVER, 7)),
        Kind::Command => Got::Done(io.command(DRIVER, 7, 8)),
        Kind::Playing => Got::Playing(io.playing(DRIVER, 7)),
        Kind::Scenes => Got::Names(io.scenes(DRIVER)),
        Kind::Current => Got::Index(io.current_scene(DRIVER)),
        Kind::Load => Got::Done(io.load_scene(DRIVER, 5)),
        Kind::Live => Got::Faders(io.live_faders(DRIVER, 6)),
    }
}

// The driver is open already, so that the use makes one call; only `open` finds none open.
fn say_use(kind: Kind, answers: &[u8]) {
    let opened = kind != Kind::Open;
    let mut io = Io::fresh(answers, [opened; 16]);
    let got = got_by(kind, &mut io);
    let name = printing::kind_name(kind.number());
    let used = Used { io, got };
    crate::show(format_args!("{name}{used}\n"));
}

// The use of a call's kind, if the number is one's.
pub(crate) fn say(number: u8, answers: &[u8]) {
    match Kind::try_from(number) {
        Ok(kind) => say_use(kind, answers),
        Err(_) => crate::show("no call\n"),
    }
}
