// A restore, what the session has of it, and the records that follow from the session.
use printing::{Hex, Printed};
use session::{Lamps, Session};
use state::Refusal;
use std::fmt;

// The position of each bank of which it is known.
#[derive(Clone, Copy)]
struct Positions(Lamps);

impl fmt::Display for Positions {
    fn fmt<W: fmt::Write>(&self, f: &mut fmt::Formatter<W>) -> fmt::Result {
        let lamps = &self.0;
        for (bank, (known, scene)) in lamps.known.iter().zip(lamps.scenes.iter()).enumerate() {
            if *known {
                write!(f, " {bank}:{scene}")?;
            }
        }
        Ok(())
    }
}

// What is saved of a session over a profile, at most 17 records of eight bytes.
#[derive(Clone, Copy)]
struct Saved<'a> {
    session: &'a Session,
    profile: &'a [u8],
}

impl fmt::Display for Saved<'_> {
    fn fmt<W: fmt::Write>(&self, f: &mut fmt::Formatter<W>) -> fmt::Result {
        let mut out = [0u8; 136];
        match state::saved_records(self.session, self.profile, &mut out) {
            Ok(count) => {
                let records = Printed(Hex(&out[..8 * count.min(17)]));
                write!(f, " saved {count} {records}")
            }
            Err(cause) => {
                let why = cause.number();
                write!(f, " refused {why}")
            }
        }
    }
}

fn restore(session: &mut Session, profile: &[u8], saved: &[u8]) -> Result<(), Refusal> {
    *session = state::restore(*session, profile, saved)?;
    Ok(())
}

pub(crate) fn say_restore(session: &mut Session, profile: &[u8], saved: &[u8]) {
    let why = restore(session, profile, saved).map_or_else(Refusal::number, |()| 0);
    let bank = session.bank;
    let positions = Positions(session.lamps);
    let kept = Saved { session, profile };
    crate::show(format_args!("restore {why} bank {bank}{positions}{kept}\n"));
}
