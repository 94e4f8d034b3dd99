// What the bridge gets of a use, as text.
use drivers::{LiveFader, LiveFaders, Names};
use printing::{Level, Printed};
use std::fmt;

// By what a use promises: whether it was done, whether a driver says that it plays or not, or what a driver gave, if it did.
#[derive(Drop)]
pub enum Got {
    Done(bool),
    Playing(bool),
    Level(Option<f64>),
    Index(Option<u32>),
    Names(Option<Names>),
    Faders(Option<LiveFaders>),
}

fn write_names<W: fmt::Write>(f: &mut fmt::Formatter<W>, names: &[u16]) -> fmt::Result {
    let count = names.len();
    write!(f, " list {count}:")?;
    for name in names {
        write!(f, " {name}")?;
    }
    Ok(())
}

fn write_faders<W: fmt::Write>(f: &mut fmt::Formatter<W>, faders: &[LiveFader]) -> fmt::Result {
    let count = faders.len();
    write!(f, " list {count}:")?;
    for fader in faders {
        let LiveFader {
            number,
            target,
            label,
            group,
            mute,
        } = *fader;
        write!(f, " {number}/{target}/{label}/{group}/{mute}")?;
    }
    Ok(())
}

impl fmt::Display for Got {
    fn fmt<W: fmt::Write>(&self, f: &mut fmt::Formatter<W>) -> fmt::Result {
        match self {
            Got::Done(true) => f.write_str(" done"),
            Got::Playing(true) => f.write_str(" yes-no"),
            Got::Playing(false) => f.write_str(" no"),
            Got::Level(Some(x)) => {
                let bits = Printed(Level(float::to_bits(*x)));
                write!(f, " level{bits}")
            }
            Got::Index(Some(i)) => write!(f, " index {i}"),
            Got::Names(Some(names)) => write_names(f, names.as_slice()),
            Got::Faders(Some(faders)) => write_faders(f, faders.as_slice()),
            Got::Level(None) | Got::Index(None) => f.write_str(" unknown"),
            Got::Done(false) | Got::Names(None) | Got::Faders(None) => f.write_str(" refused"),
        }
    }
}
